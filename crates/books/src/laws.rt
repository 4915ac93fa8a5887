// What the answers of a book mean, said of chains of lines. Each function has nothing to do: its promise is a law.
ghost use Rattle.books.specs.Laws.{ReachLaw, SupportLaw, NeedLaw, TotalLaw};

use factors::factor::Factor;

/// A block reaches another just if a chain of lines goes from the one to the other.
pub fn reach_is_a_chain<F: Factor>()
    ensures { ReachLaw F }
{}

/// The support number of two blocks counts the lines to the second from blocks that the first reaches.
pub fn support_counts_lines<F: Factor>()
    ensures { SupportLaw F }
{}

/// A line is needed just if no chain of two lines or more goes the same way.
pub fn need_is_no_detour<F: Factor>()
    ensures { NeedLaw F }
{}

/// The total of two blocks is put together from the totals past each line from the first.
pub fn total_goes_on_along_lines<F: Factor>()
    ensures { TotalLaw F.Factor.ring.ops }
{}
