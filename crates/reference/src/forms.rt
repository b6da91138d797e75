// Forms: literals of which all have to be true, or one.

// Whether a variable has a value, or does not have it.
#[derive(Clone, Copy, Debug, PartialEq, Eq)]
pub enum Sign {
    Plus,
    Minus,
}

// How many literals of a form have to be true.
#[derive(Clone, Copy, Debug, PartialEq, Eq)]
pub enum Kind {
    AllOf,
    AnyOf,
}

// The most literals of a form.
const MOST: usize = 8;

// A kind, so many literals, and a 0 in each place behind them.
// kept: an array with a count, so that a form can be copied, and takes no memory.
#[derive(Clone, Copy)]
pub struct Form {
    pub kind: Kind,
    pub count: usize,
    pub literals: [i64; MOST],
}

impl Form {
    // A form of no literals.
    pub fn new(kind: Kind) -> Form {
        Form {
            kind,
            count: 0,
            literals: [0; MOST],
        }
    }

    // A form of one literal.
    pub(crate) fn one(literal: i64) -> Form {
        let mut own = Form::new(Kind::AllOf);
        own.put(literal);
        own
    }

    // Adds a literal.
    pub fn put(&mut self, literal: i64) {
        if let Some(place) = self.literals.get_mut(self.count) {
            *place = literal;
        }
        self.count = self.count.saturating_add(1);
    }

    // The literals that there are.
    pub fn members(&self) -> &[i64] {
        self.literals.get(..self.count).unwrap_or(&[])
    }

    // Any of the opposites.
    pub fn opposite(self) -> Form {
        let mut any = Form::new(Kind::AnyOf);
        for literal in self.members() {
            any.put(literal.saturating_neg());
        }
        any
    }

    // In how many ways the form can put literals into a clause: one of all, or any of them at once.
    pub(crate) fn choices(&self) -> usize {
        match self.kind {
            Kind::AllOf => self.count,
            Kind::AnyOf => 1,
        }
    }

    // The literals that a choice puts into a clause.
    pub(crate) fn chosen(&self, choice: usize) -> &[i64] {
        match self.kind {
            Kind::AllOf => self.members().get(choice..=choice).unwrap_or(&[]),
            Kind::AnyOf => self.members(),
        }
    }
}
