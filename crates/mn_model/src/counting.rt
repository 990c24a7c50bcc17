//! How many places and cells a constraint has.
ghost use Rattle.std.specs.Prelude.{◌≡◌, ◌≤◌, length};
ghost use Rattle.mn_model.specs.Parts.{cell_count, cell_count_of, cells_here};
ghost use Rattle.mn_model.specs.declared.limits.TheConstants.{CELLS};

use super::{Con, Cons, Tab};

impl Con {
    /// How many cells the tables have that are written in the constraint.
    #[cycle(counting)]
    pub fn cells(&self) -> u64
        requires { cell_count self.now ≤ CELLS }
        ensures { result ≡ cell_count self.now }
    {
        match self {
            Con::Table(_, tab) => tab.cells(),
            Con::Negativetable(_, tab) => tab.cells(),
            Con::WatchedOr(children) => children.cells(),
            Con::WatchedAnd(children) => children.cells(),
            Con::Reify(part, _) => part.get().cells(),
            Con::Reifyimply(part, _) => part.get().cells(),
            Con::Negated(part) => part.get().cells(),
            _ => 0,
        }
    }
}

impl Cons {
    /// How many they have together.
    #[cycle(counting)]
    fn cells(&self) -> u64
        requires { cell_count_of self.now ≤ CELLS }
        ensures { result ≡ cell_count_of self.now }
    {
        let mut count = 0;
        let mut rest = self;
        while let Cons::More(first, others) = rest {
            count += first.get().cells();
            rest = others.get();
        }
        count
    }
}

impl Tab {
    fn cells(&self) -> u64
        ensures { result ≡ length (cells_here self.now) }
    {
        match self {
            Tab::Named(_) => 0,
            Tab::Here { cells, .. } => cells.len() as u64,
        }
    }
}
