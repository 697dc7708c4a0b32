//! Laws of windows. Each function does nothing: its contract is the law.
ghost use Rattle.replications.specs.WindowLaws.{WindowLaw, WindowsAdd};

/// A window from tick 0 counts what the totals of a simulation count, and its sums of times go on to its last tick: what the
/// last part left lasts until then.
pub fn law_window()
    ensures { WindowLaw }
{}

/// The counts and the sums of times of a window are those up to a tick within it, over what is told before that tick, and
/// those from that tick on: so windows that follow one another can be added up.
pub fn law_windows_add()
    ensures { WindowsAdd }
{}
