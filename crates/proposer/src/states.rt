// A state: a run that is open, as one number, so that the cheaper of two is the lesser: the bits up to here, then where the run begins (ten
// bits), then its form (four).

// A form: a patched run has the class of its frame beside. No lack and no failure, so no Option and no Result.
#[derive(Clone, Copy)]
pub(crate) enum Form {
    Short,
    Direct,
    Fixed,
    Packed,
    Patched(u64),
}

// Bits that no path through a window takes, and the state that cannot go on. Both are costs among costs: an Option instead would be a branch for
// each row and width.
pub(crate) const FAR: u64 = 67108864;

pub(crate) const CLOSED: u64 = 1099511627776;

impl Form {
    // As a proposal has it: orc_plan hands the number to C.
    pub(crate) fn number(self) -> u64 {
        match self {
            Form::Short => 0,
            Form::Direct => 1,
            Form::Fixed => 2,
            Form::Packed => 3,
            Form::Patched(_) => 4,
        }
    }

    // As a state has it: a patched run's is 4 and its class.
    fn code(self) -> u64 {
        match self {
            Form::Patched(class) => class.wrapping_add(4),
            _ => self.number(),
        }
    }
}

// The form of a code: a state is one number, in four bits of which the form stands (above).
impl From<u64> for Form {
    fn from(code: u64) -> Form {
        match code {
            0 => Form::Short,
            1 => Form::Direct,
            2 => Form::Fixed,
            3 => Form::Packed,
            _ => Form::Patched(code.wrapping_sub(4)),
        }
    }
}

pub(crate) fn state(bits: u64, from: u64, form: Form) -> u64 {
    bits << 14 | from << 4 | form.code()
}

// So many bits more, as a state has them.
pub(crate) fn more(bits: u64) -> u64 {
    bits << 14
}

pub(crate) fn bits(state: u64) -> u64 {
    state >> 14
}

pub(crate) fn from(state: u64) -> u64 {
    state >> 4 & 1023
}

pub(crate) fn form_of(state: u64) -> Form {
    Form::from(state & 15)
}
