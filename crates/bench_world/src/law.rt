//! That a command answers what it is asked for where noise doesn't keep it from that. The calls do nothing: they stand
//! for these laws.

ghost use Rattle.bench_world.specs.Alike.{AlikeAccept, AlikeAnswers, AlikeFronts, AlikeSteps};
ghost use Rattle.bench_world.specs.Behind.{WrittenIsRead, OneOfThreeIsRead, BrokenIsRead, FirstBrokenIsRead};
ghost use Rattle.bench_world.specs.Completing.{ReadsComplete, WritesComplete, ShownIsWritten, ValidIsWritten};
ghost use Rattle.bench_world.specs.Completing.{FindsComplete, TagsComplete, ThreesComplete};
ghost use Rattle.bench_world.specs.CompletingLinks.{AskedComplete, PutsComplete, SeveralComplete, GetsComplete};
ghost use Rattle.bench_world.specs.CompletingLinks.{LookupsComplete, UnlinksComplete, ValidIsOk, LinkingsComplete};
ghost use Rattle.bench_world.specs.CompletingLinks.{KindsTold};
ghost use Rattle.bench_world.specs.CompletingForging.{ForgedKindsTold, ForgingsComplete, QuietForgings};
ghost use Rattle.bench_world.specs.CompletingRaws.{QuietRaws, RawsComplete};
ghost use Rattle.bench_world.specs.CompletingThrees.{ThreesRead, ThreesWrite, ThreesWritten, QuietThreesRead};
ghost use Rattle.bench_world.specs.CompletingThrees.{QuietThreesWrite, QuietThreesWritten, Written3IsRead};
ghost use Rattle.bench_world.specs.CompletingThrees.{Written3IsWhole, OneOfTwo3IsRead, Undisturbed3IsRead};
ghost use Rattle.bench_world.specs.CompletingThrees.{Quiet3IsRead};
ghost use Rattle.bench_world.specs.Cutting.{FirstCuts, FrontsCut, MidstCuts, RepliesShort};
ghost use Rattle.bench_world.specs.LinkLaw.{CutArrivalLaw, CutLinkLaw, LinkLaw};
ghost use Rattle.bench_world.specs.Quiet.{QuietStays, QuietReads, QuietWrites, QuietIsWritten, QuietFinds, QuietTags};
ghost use Rattle.bench_world.specs.Quiet.{QuietThrees};
ghost use Rattle.bench_world.specs.QuietHearing.{QuietHears, QuietScript};
ghost use Rattle.bench_world.specs.QuietLinks.{QuietTalks, QuietLinkings};
ghost use Rattle.bench_world.specs.ReadBack.{LinesTellEvents, AnswersApart};
ghost use Rattle.bench_world.specs.Showing.{EntriesLeaveAlike, EventsTell, NumbersShow};
ghost use Rattle.bench_world.specs.Taking.{LinesDecide};

/// A legal read of a placed tag, without a Break, without a wait of six bad receptions and with one round (of a Type 5
/// tag one try) of polling without noise, tells what the tag's store holds. So does one of a Type 3 tag, which also
/// tells that a write of it was begun and not finished.
pub fn reads_complete()
    ensures tags { ReadsComplete }
    ensures threes { ThreesRead }
{}

/// So does a legal write tell what it comes to by the tag's store and its locked blocks: a message is written where the
/// tag takes it and none of the blocks that are written for it is locked; of a Type 3 tag likewise.
pub fn writes_complete()
    ensures told { WritesComplete }
    ensures shown { ShownIsWritten }
    ensures written { ValidIsWritten }
    ensures threes { ThreesWrite }
    ensures valid { ThreesWritten }
{}

/// A legal search, without a Break and with a round and a try without noise, lists the whole field; one for Type 5
/// tags, without a Break and with a pass without noise, lists all of them; and one for Type 3 tags, without a Break and
/// with a try without noise, tells of all of them.
pub fn finds_complete()
    ensures finds { FindsComplete }
    ensures tags { TagsComplete }
    ensures threes { ThreesComplete }
{}

/// A legal command on the open link is answered as its peer answers it, and the link is closed, exactly where no Break
/// was used and no wait had six bad receptions: so a valid one gives what it's asked for. Where little noise is, a
/// placed peer is linked, and of payloads that are sent to it by hand a reply to each is heard; and a tag tells that it
/// has no link as peers do. Of frames that are sent to a placed device by hand it is told then what was heard of each.
pub fn links_complete()
    ensures asked { AskedComplete }
    ensures puts { PutsComplete }
    ensures several { SeveralComplete }
    ensures gets { GetsComplete }
    ensures lookups { LookupsComplete }
    ensures unlinks { UnlinksComplete }
    ensures valid { ValidIsOk }
    ensures linkings { LinkingsComplete }
    ensures kinds { KindsTold }
    ensures forgings { ForgingsComplete }
    ensures forged { ForgedKindsTold }
    ensures raws { RawsComplete }
{}

/// Behind a write, with no command between that touches its tag, a read that tells a message tells the new one where
/// the write was a success, and whatever it answered the old one, the empty one or the new one. Where the tag is pulled
/// away at any one of the transmissions of a write, and all others pass, a read behind it tells one of these three; at
/// the first of them, the old one. Of a Type 3 tag a success is never read as unfinished, and only the old message or
/// the new one is told.
pub fn reads_behind()
    ensures written { WrittenIsRead }
    ensures three { OneOfThreeIsRead }
    ensures broken { BrokenIsRead }
    ensures first { FirstBrokenIsRead }
    ensures written3 { Written3IsRead }
    ensures whole3 { Written3IsWhole }
    ensures two3 { OneOfTwo3IsRead }
    ensures told3 { Undisturbed3IsRead }
{}

/// Which lines of a script are taken is decided by the lines alone, not by what was sent.
pub fn lines_decide()
    ensures { LinesDecide }
{}

/// What doesn't show decides nothing later. Two states are alike where the same link is open, the field is as lit, the
/// same fates are left, the peers and their links are the same, and so is all that the dark leaves of devices and far
/// ends; and, where a link is open, all else too. Alike states accept the same commands, and a command that was cut
/// off, or a legal step, of one is one of the other and leaves both alike. And what happened in a step of either
/// decides its answer, as long as what was asked on the open link is told the same by the numbers of PDUs.
pub fn alike_states()
    ensures accept { AlikeAccept }
    ensures fronts { AlikeFronts }
    ensures steps { AlikeSteps }
    ensures answers { AlikeAnswers }
{}

/// A stored report can be read back: two events of one technology have one line only where they are equal, and no
/// answer's line is an event's.
pub fn lines_tell_events()
    ensures events { LinesTellEvents }
    ensures answers { AnswersApart }
{}

/// Where no fate is left but Pass, the air stays quiet, a read of a placed tag tells what its store holds, a write what
/// it comes to, which is success where the tag takes the message and none of its blocks is locked, a search lists the
/// whole field, a placed peer is linked, frames that are sent by hand are each told of, and each command on the open
/// link is answered as its peer answers it; no reception is bad but the silences of polling, so behind the selection of
/// a device, and on a link, each is a whole answer. Where no line has another fate, all this holds of each entry of a
/// script's journal.
pub fn quiet_air()
    ensures stays { QuietStays }
    ensures reads { QuietReads }
    ensures writes { QuietWrites }
    ensures written { QuietIsWritten }
    ensures finds { QuietFinds }
    ensures tags { QuietTags }
    ensures threes { QuietThrees }
    ensures reads3 { QuietThreesRead }
    ensures writes3 { QuietThreesWrite }
    ensures written3 { QuietThreesWritten }
    ensures behind3 { Quiet3IsRead }
    ensures talks { QuietTalks }
    ensures linkings { QuietLinkings }
    ensures forgings { QuietForgings }
    ensures raws { QuietRaws }
    ensures hears { QuietHears }
    ensures script { QuietScript }
{}

/// Of each link in a legal journal, and of each client's SAP: what the peer accepted on it are the messages that were
/// put and are within its limit, in order, each whole and once, none left out, up to some point. That point covers all
/// that were told to be taken, and at most one more: the last put, which then wasn't answered. It's just what the
/// payloads put that arrived there while the link was open, counted from PNI 0, whatever was offered between them; of a
/// link whose frames were written by hand nothing of this is said. And an inbox tells what its peer accepted on no
/// link, which is nothing as long as no frames of a script's own were sent, and then what it accepted on each, each
/// message once, and nothing else. Behind a command that want of memory cut off it is so too, and its put counts as
/// put; of what the last payload put there is a front.
pub fn links_accept()
    ensures whole { LinkLaw }
    ensures cut { CutLinkLaw }
    ensures stopped { CutArrivalLaw }
{}

/// Both ends of each link cut payloads into pieces of two bytes or more, and neither has a payload that is longer than
/// 2,178 bytes: so it is of a new bench, through each command, and in the midst of one, whatever happens in it.
pub fn pieces_stay()
    ensures first { FirstCuts }
    ensures fronts { FrontsCut }
    ensures midst { MidstCuts }
    ensures replies { RepliesShort }
{}

/// Numbers of PDUs that events show are as good as the true ones, whatever stands behind these events: where a legal
/// step begins with them, one by the numbers that they show does too, and is over where it is. And what happened in a
/// step decides what is told of it and what stays, by whatever numbers it could be had. Of frames that are written by
/// hand this is said only where no peer is placed.
pub fn numbers_show()
    ensures steps { NumbersShow }
    ensures told { EventsTell }
    ensures alike { EntriesLeaveAlike }
{}
