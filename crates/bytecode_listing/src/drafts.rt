// Lines of a listing before names and strings are looked up.
use octets::Octets;

/// What is written instead of the number of c.
#[derive(Drop)]
pub enum Target {
    Number(u32),
    /// A name, and how many bytes of the listing are left at it.
    Name(Octets, usize),
    /// A string, and how many bytes of the listing are left at it.
    Quoted(Octets, usize),
}

/// An instruction whose c can be a name or a string.
#[derive(Drop)]
pub struct Draft {
    pub op: u8,
    pub a: u8,
    pub b: u16,
    pub c: Target,
}

/// A label or an instruction.
#[derive(Drop)]
pub enum Line {
    /// Its name, and how many bytes of the listing are left at that.
    Label(Octets, usize),
    Step(Draft),
}
