//! What a reader of lines comes to. The calls do nothing: each stands for a law.

ghost use Rattle.nfc_io.specs.Reading.{GivesInOrder};
ghost use Rattle.nfc_io.specs.Behind.{GivesAll};

/// However a source cuts its bytes, the lines that a reader gives are those of its bytes, in order.
pub fn lines_in_order()
    ensures { GivesInOrder }
{}

/// However a source cuts its bytes, the lines that a reader gave and what it hands over behind them are all of them.
pub fn rest_behind_lines()
    ensures { GivesAll }
{}
