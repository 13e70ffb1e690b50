// The map of dimension 2 that a text's corners make, out of what was kept of each: its own vertex, its twin and how
// many corners of its face are left with it.
#![tactic(auto)]

ghost use Rattle.std.specs.Prelude.{◌≡◌, ◌+◌, ◌*◌, ◌≤◌, ◌<◌, length};
ghost use Rattle.build.specs.Parts.{joined_at, six_put, Lefts, Builds};

// The most corners of a map.
const CORNERS: u16 = 2048;

// a2 of a corner's own dart, and of its far one.
#[derive(Clone, Copy)]
pub struct Joined {
    pub own: usize,
    pub far: usize,
}

fn ends(owns: &[u32; 2048], twins: &[u16; 2048], k: usize) -> Joined
    requires { k < 2048 }
    ensures { (result ≡ joined_at owns.now twins.now k) × (result.own < 4096) × (result.far < 4096) }
{
    let twin = twins[k];
    if CORNERS <= twin {
        return Joined {
            own: 2 * k,
            far: 2 * k + 1,
        };
    }
    let e = twin as usize;
    if owns[e] == owns[k] {
        return Joined {
            own: 2 * e,
            far: 2 * e + 1,
        };
    }
    Joined {
        own: 2 * e + 1,
        far: 2 * e,
    }
}

// The six links of corner k's two darts.
fn put(tables: &mut [u16], k: usize, before: usize, after: usize, e: Joined)
    requires { (6 * k + 6 ≤ length tables.old) × (k < 2048) × (before < 2048) × (after < 2048) × (e.own < 4096)
        × (e.far < 4096) }
    ensures { tables.new ≡ six_put tables.old k before after e }
{
    let p = 6 * k;
    tables[p] = (2 * k + 1) as u16;
    tables[p + 1] = (2 * before + 1) as u16;
    tables[p + 2] = e.own as u16;
    tables[p + 3] = (2 * k) as u16;
    tables[p + 4] = (2 * after) as u16;
    tables[p + 5] = e.far as u16;
}

// The map, corner by corner, out of what was kept of them.
pub fn build(
    corners: usize,
    tables: &mut [u16],
    twins: &[u16; 2048],
    owns: &[u32; 2048],
    lefts: &[u32; 2048],
)
    requires { Lefts lefts.now corners × (6 * corners ≤ length tables.old) }
    ensures { Builds twins.now owns.now lefts.now corners tables.old
        tables.new }
{
    let mut first: usize = 0;
    for k in 0..corners {
        let left = lefts[k] as usize;
        let before = if k == first { k + left - 1 } else { k - 1 };
        // A face's last corner leads back to its first, and the next face begins after it.
        let (after, next) = if left == 1 {
            (first, k + 1)
        } else {
            (k + 1, first)
        };
        put(tables, k, before, after, ends(owns, twins, k));
        first = next;
    }
}
