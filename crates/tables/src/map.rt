// A map as it is lent.
#![tactic(auto)]

ghost use Rattle.rules.specs.Map.{by_dart, Limits, Valid};

// N, n, and tables that have room for the links.
#[derive(Clone, Copy)]
pub struct Map<'a> {
    pub dim: usize,
    pub darts: usize,
    pub tables: &'a [u16],
    ghost limits: { Limits dim darts tables.now },
}

// One that breaks none of 6 to 8.
#[derive(Clone, Copy)]
pub struct ValidMap<'a> {
    pub map: Map<'a>,
    ghost valid: { Valid by_dart map.dim map.darts map.tables.now },
}
