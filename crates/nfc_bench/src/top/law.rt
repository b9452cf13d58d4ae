//! What a sweep finds, as a law. The call does nothing: it stands for this law.

ghost use Rattle.nfc_bench.specs.SweptReads.{SweptIsRead, NeitherIsEmpty};

/// Wherever the tag is pulled away during the write of a sweep, the read behind it tells a message: the one that the
/// tag held before the write, the empty one, or the new one. The first of these reads tells the old one, so each that
/// is counted as neither the old message nor the new one tells the empty one.
pub fn swept_is_read()
    ensures read { SweptIsRead }
    ensures empty { NeitherIsEmpty }
{}
