ghost use Rattle.std.specs.Cmp.Lexicographic.{slice_cmp};
ghost use Rattle.std.specs.List.Sorted.{IsPermutation, IsSortedByKey};
ghost use Rattle.std.specs.Ordering.{int_cmp};
ghost use Rattle.std.specs.Prelude.{◌≡◌, ℕ, List};
ghost use Rattle.pls_archive.specs.declared.call.Call.{Call};
ghost use Rattle.pls_archive.specs.declared.call.Reply.{Reply};
ghost use Rattle.pls_archive.specs.declared.point.Point.{Point};
ghost use Rattle.pls_archive.specs.Reply.{members, in_order};
ghost use Rattle.pls_archive.specs.RunLaws.{KeepsOwnOrder, KeepsTotals, CountsAccepting, ViewsAreSequentiallyConsistent, HoldsInOrder, AcceptsValuesOnce, CallersAcceptValuesOnce, TellsFront, StopsWithMore, RunsSequentially, IsOnlySequentialRun, ClosesFront, EndsInLocalOptima};

/// The laws of histories of several callers, over any replies, or over those of a rule. The contract holds the laws: a call does
/// nothing.
pub fn history_laws()
    ensures own_order { (reply : List Point → Call → Reply) → KeepsOwnOrder reply }
    ensures totals { (reply : List Point → Call → Reply) → KeepsTotals reply }
    ensures counted { (reply : List Point → Call → Reply) → CountsAccepting reply }
    ensures views { (front : List Point → List Point) (reply : List Point → Call → Reply) → ViewsAreSequentiallyConsistent front reply }
    ensures in_order { HoldsInOrder }
    ensures values { (front : List Point → List Point) (reply : List Point → Call → Reply) → AcceptsValuesOnce front reply }
    ensures callers_values { (front : List Point → List Point) (reply : List Point → Call → Reply) → CallersAcceptValuesOnce front reply }
{}

/// The laws of search runs, over any replies, or over those of a rule, and every neighbourhood. A call does nothing.
pub fn run_laws()
    ensures stopped { (reply : List Point → Call → Reply) (neighbours : Point → List Point) → StopsWithMore reply neighbours }
    ensures sequential { (reply : List Point → Call → Reply) (neighbours : Point → List Point) → RunsSequentially reply neighbours }
    ensures only { (reply : List Point → Call → Reply) (neighbours : Point → List Point) → IsOnlySequentialRun reply neighbours }
    ensures front { (front : List Point → List Point) (reply : List Point → Call → Reply) (neighbours : Point → List Point) → TellsFront front reply neighbours }
    ensures closed { (front : List Point → List Point) (reply : List Point → Call → Reply) (neighbours : Point → List Point) → ClosesFront front reply neighbours }
    ensures local_optima { (neighbours : Point → List Point) → EndsInLocalOptima neighbours }
{}

/// The laws of the members in order: the same points, in ascending lexicographic order of values, and the
/// only such list. A call does nothing.
pub fn order_laws()
    ensures same { (points : List Point) → IsPermutation points (in_order points) }
    ensures ascending { (points : List Point) → IsSortedByKey (λ p. p.value) (slice_cmp int_cmp) (in_order points) }
    ensures only { (submitted sorted : List Point) → IsPermutation (members submitted) sorted
        → IsSortedByKey (λ p. p.value) (slice_cmp int_cmp) sorted → sorted ≡ in_order (members submitted) }
{}
