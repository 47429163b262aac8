//! The jobs of a class and a priority that wait, by the links of their first records.
ghost use Rattle.std.specs.Prelude.{◌≡◌, ◌≢◌, ◌+◌, ◌*◌, ◌/◌, ◌<◌, ◌≤◌, IfNone, IfSome, false, length};
ghost use Rattle.chain_store.specs.Chains.{AreEmpty, IsFirstUsed};

/// The first record, the last, and how many there are. The link of each but the last leads to the next.
#[derive(Clone, Copy)]
pub(crate) struct Chain {
    pub(crate) first: u32,
    pub(crate) last: u32,
    pub(crate) count: u32,
}

/// A chain without one of its records, by its number, the one before it, 0 if it is the first, and the one to which its link led.
pub(crate) fn without(jobs: Chain, n: u32, before: u32, next: u32) -> Chain
    requires { jobs.count ≢ 0 }
    ensures count { result.count + 1 ≡ jobs.count }
    ensures front { before ≡ 0 → result.first ≡ next }
    ensures behind { before ≢ 0 → result.first ≡ jobs.first }
    ensures end { n ≡ jobs.last → result.last ≡ before }
    ensures middle { n ≢ jobs.last → result.last ≡ jobs.last }
{
    Chain {
        first: if before == 0 { next } else { jobs.first },
        last: if n == jobs.last { before } else { jobs.last },
        count: jobs.count - 1,
    }
}

/// The first of fourteen chains from a place on that has a job.
pub(crate) fn first_used(chains: &[Chain], from: usize) -> Option<usize>
    requires { from + 14 ≤ length chains.now }
    ensures some { IfSome result (IsFirstUsed chains.now from) }
    ensures none { IfNone result (AreEmpty chains.now from (from + 14)) }
{
    let mut place = from;
    while place < from + 14 {
        if chains[place].count != 0 {
            return Some(place);
        }
        place += 1;
    }
    None
}

/// Whether a job of a class waits, one of whose chains is at a place. The others are looked at only if that one has none.
pub(crate) fn is_occupied(chains: &[Chain], place: usize) -> bool
    requires within { place < 210 }
    requires size { length chains.now ≡ 210 }
    ensures { result ≡ false → AreEmpty chains.now (place / 14 * 14) (place / 14 * 14 + 14) }
{
    chains[place].count != 0 || first_used(chains, place / 14 * 14).is_some()
}
