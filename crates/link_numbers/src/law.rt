//! That numbers of PDUs which are read off events are as good as the true ones. The call does nothing: it stands for
//! these laws.

ghost use Rattle.link_numbers.specs.OwnShows.{OwnShows, OwnShowsClosing};

/// Where events begin with those of a call on a link, or of a closing, whatever stands behind them: by the numbers
/// that they show the same is due in it, and it comes to the same. Who follows a trace may so take these numbers for
/// those that its end had, which no frame tells of a payload that was cut off.
pub fn calls_show()
    ensures own { OwnShows }
    ensures closing { OwnShowsClosing }
{}
