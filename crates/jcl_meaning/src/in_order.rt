//! What is said of a job's DDs, in lists in which that of one DD is found without going through them all.
ghost use Rattle.std.specs.Prelude.{◌≡◌, ℕ, ◌++◌, ◌∷◌, ◌≤◌, [], drop, length, true};
ghost use Rattle.jcl_meaning.specs.InOrder.{AreInOrder, first_of, is_before};
ghost use Rattle.std.specs.Option.{option_copied};

/// What is said of a DD.
pub(crate) trait OfDd {
    ghost step_of: { Self → ℕ };

    ghost dd_of: { Self → ℕ };

    /// The numbers of its step and of the DD in it, each from 1.
    fn spot(&self) -> (usize, usize)
        ensures step { result.0 ≡ step_of self.now }
        ensures dd { result.1 ≡ dd_of self.now };
}

/// Whether what is said of a DD stands before this one.
fn is_before<T: OfDd>(said: &T, step: usize, dd: usize) -> bool
    ensures { result ≡ is_before (T.step_of said.now) (T.dd_of said.now) step dd }
{
    let (own_step, own_dd) = said.spot();
    own_step < step || (own_step == step && own_dd < dd)
}

/// How many stand before a DD, of which none is its own.
fn before<T: OfDd>(list: &[T], step: usize, dd: usize) -> usize
    requires { AreInOrder T.step_of T.dd_of list.now }
    ensures bound { result ≤ length list.now }
    ensures skipped { first_of T.step_of T.dd_of (drop result list.now) step dd ≡ first_of T.step_of T.dd_of list.now step dd }
{
    let mut low = 0;
    let mut high = list.len();
    while low < high {
        let middle = low + (high - low) / 2;
        if is_before(&list[middle], step, dd) {
            low = middle + 1;
        } else {
            high = middle;
        }
    }
    low
}

/// The first that is said of a DD.
fn first_of<T: OfDd>(list: &[T], step: usize, dd: usize) -> Option<&T>
    ensures { option_copied result ≡ first_of T.step_of T.dd_of list.now step dd }
{
    for said in list {
        let (own_step, own_dd) = said.spot();
        if own_step == step && own_dd == dd {
            return Some(said);
        }
    }
    None
}

/// Whether one that comes behind the others keeps their order.
pub(crate) fn keeps_order<T: OfDd>(list: &[T], next: &T) -> bool
    ensures { result ≡ true → AreInOrder T.step_of T.dd_of list.now → AreInOrder T.step_of T.dd_of (list.now ++ next.now ∷ []) }
{
    match list.last() {
        None => true,
        Some(last) => {
            let (step, dd) = next.spot();
            is_before(last, step, dd)
        }
    }
}

/// The first that is said of a DD in a list that may be in order.
pub(crate) fn said_of<T: OfDd>(list: &[T], in_order: bool, step: usize, dd: usize) -> Option<&T>
    requires { in_order ≡ true → AreInOrder T.step_of T.dd_of list.now }
    ensures { option_copied result ≡ first_of T.step_of T.dd_of list.now step dd }
{
    let from = if in_order { before(list, step, dd) } else { 0 };
    let (_, rest) = list.split_at(from);
    first_of(rest, step, dd)
}
