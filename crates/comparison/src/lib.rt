// Computed states beside the published ones, and how many differ.
#![tactic(auto)]

ghost use Rattle.std.specs.Prelude.{◌≡◌, Some};
ghost use Rattle.comparison.specs.Compared.{row_name, column_name, digits_of, differs as differs_of, differing as differing_of};

use std::fmt;

/// What a column of the tables shows.
#[derive(Clone, Copy)]
pub enum Column {
    Cipher32,
    Cipher40,
    Tag,
    Tweak,
    Key,
}

impl Column {
    /// The hexadecimal digits of a state.
    pub fn digits(self) -> usize
        ensures { result ≡ digits_of self }
    {
        match self {
            Column::Cipher32 | Column::Tag => 8,
            Column::Cipher40 => 10,
            Column::Tweak => 16,
            Column::Key => 32,
        }
    }
}

impl fmt::Display for Column {
    ghost output = { λ column. Some (column_name column) };

    fn fmt<W: fmt::Write>(&self, f: &mut fmt::Formatter<W>) -> fmt::Result {
        match self {
            Column::Cipher32 | Column::Cipher40 => write!(f, "cipher"),
            Column::Tag => write!(f, "tag"),
            Column::Tweak => write!(f, "tweak"),
            Column::Key => write!(f, "key"),
        }
    }
}

/// Which state of a decryption a row of the tables shows: the input, the one after the whitening, or the one after a
/// round.
#[derive(Clone, Copy)]
pub enum Row {
    Input,
    Whitening,
    Round(usize),
}

impl fmt::Display for Row {
    ghost output = { λ row. Some (row_name row) };

    fn fmt<W: fmt::Write>(&self, f: &mut fmt::Formatter<W>) -> fmt::Result {
        match self {
            Row::Input => write!(f, "input"),
            Row::Whitening => write!(f, "whitening"),
            Row::Round(i) => write!(f, "round {i}"),
        }
    }
}

/// One place of a table: the state that the code computes, and the published one.
#[derive(Clone, Copy)]
pub struct Cell {
    pub row: Row,
    pub column: Column,
    pub computed: u128,
    pub published: u128,
}

impl Cell {
    /// Whether the computed state is not the published one.
    pub fn differs(&self) -> bool
        ensures { result ≡ differs_of self.now }
    {
        self.computed != self.published
    }
}

/// How many cells are not as published.
pub fn differing(cells: &[Cell]) -> usize
    ensures { result ≡ differing_of cells.now }
{
    cells.iter().filter(|cell| cell.differs()).count()
}
