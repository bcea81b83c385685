// Groupings and ids, each a number for each of n signals: the first of a class, the least signal whose id differs from
// that of the first of its class, and the classes split by id.
#![tactic(auto)]

ghost use Rattle.std.specs.Prelude.{◌≡◌, ◌<◌, ◌≤◌, length, MatchOption};
ghost use Rattle.meaning.specs.Joint.{first};
ghost use Rattle.groups.specs.ByIds.{fault_by, same_by, first_by, split_by};

// The first member of v's class.
pub fn first_of(g: &[u16], v: usize) -> usize
    requires { v < length g.now }
    ensures { (result ≡ first g.now v) × (result ≤ v) }
{
    (0..v).find(|u| g[*u] == g[v]).unwrap_or(v)
}

// The least signal whose id differs from that of the first of its class, if there is one.
pub fn fault(g: &[u16], ids: &[u16]) -> Option<usize>
    requires { length ids.now ≡ length g.now }
    ensures { MatchOption result (fault_by g.now ids.now ≡ length g.now) (λ v. (v ≡ fault_by g.now ids.now) × (v < length g.now)) }
{
    (0..g.len()).find(|v| ids[first_of(g, *v)] != ids[*v])
}

// A grouping with an id for each of its signals.
#[derive(Clone, Copy)]
struct Told<'a> {
    g: &'a [u16],
    ids: &'a [u16],
    ghost same_length: { length ids.now ≡ length g.now },
}

impl<'a> Told<'a> {
    // One class, and one id.
    #[tactic(auto, unfolding(crate::specs::ByIds::same_by, meaning::specs::Joint::class))]
    fn together(&self, u: usize, v: usize) -> bool
        requires { (u < length self.now.g.now) × (v < length self.now.g.now) }
        ensures { result ≡ same_by self.now.g.now self.now.ids.now u v }
    {
        self.g[u] == self.g[v] && self.ids[u] == self.ids[v]
    }

    // The first member of v's class, once the classes are split by id.
    fn first(&self, v: usize) -> usize
        requires { v < length self.now.g.now }
        ensures { (result ≡ first_by self.now.g.now self.now.ids.now v) × (result ≤ v) }
    {
        (0..v).find(|u| self.together(*u, v)).unwrap_or(v)
    }
}

// The classes split by id, numbered from 0 in order of first member.
pub fn split(g: &[u16], ids: &[u16], out: &mut [u16])
    requires { (length ids.now ≡ length g.now) × (length out.old ≡ length g.now) × (length g.now ≤ 65535) }
    ensures { out.new ≡ split_by g.now ids.now }
{
    let told = Told { g, ids };
    let mut count = 0;
    for v in 0..g.len() {
        let u = told.first(v);
        let c = if u < v { out[u] } else { count };
        out[v] = c;
        count = count.max(c + 1);
    }
}
