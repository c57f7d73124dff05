// The five forms of a line.
ghost use Rattle.std.specs.Prelude.{◌≡◌, ◌≤◌, true, false, length, IfOk, MatchResult, OnOk, slice_index};
ghost use Rattle.refusal.specs.declared.Refusal.TheVariants.{Garbled};
ghost use Rattle.command.specs.Forms.{letter_of, form_of, most_of, space_at, allows, complete, wrong_at, fits};
ghost use Rattle.command.specs.Lines.{command_of, meaning};
ghost use Rattle.command.specs.Lines.Meaning.{refused};

use crate::digits::is_digit;
use refusal::Refusal;

/// The most bytes of a line.
const MOST: usize = 1024;

/// What a line asks for, by its letter.
#[derive(Clone, Copy, PartialEq, Eq, Debug)]
pub enum Form {
    Key = b'K' as isize,
    Image = b'I' as isize,
    Fetch = b'F' as isize,
    Write = b'W' as isize,
    Status = b'S' as isize,
}

/// The form that a letter begins, if there is one.
// Stays: no TryFrom<char>, since the one thing that its error could say is that there is no form, and None says that.
pub fn form_of(letter: char) -> Option<Form>
    ensures { result ≡ form_of letter }
{
    match letter {
        'K' => Some(Form::Key),
        'I' => Some(Form::Image),
        'F' => Some(Form::Fetch),
        'W' => Some(Form::Write),
        'S' => Some(Form::Status),
        _ => None,
    }
}

impl Form {
    fn letter(self) -> u8
        ensures { result ≡ letter_of self }
    {
        self as u8
    }

    // The most bytes of a line of this form.
    // Stays: no struct of a form's shape; columns for I's even lengths and W's second space would be empty elsewhere.
    fn most(self) -> usize
        ensures { result ≡ most_of self }
    {
        match self {
            Form::Key => 34,
            Form::Image => MOST,
            Form::Fetch => 10,
            Form::Write => 20,
            Form::Status => 1,
        }
    }

    // Whether a space stands at a place.
    fn space_at(self, place: usize) -> bool
        ensures { result ≡ space_at self place }
    {
        match self {
            Form::Key | Form::Image | Form::Fetch => place == 1,
            Form::Write => matches!(place, 1 | 7),
            Form::Status => false,
        }
    }

    /// Whether a byte may stand at a place.
    pub fn allows(self, place: usize, byte: u8) -> bool
        ensures { result ≡ allows self place byte }
    {
        if place >= self.most() {
            false
        } else if place == 0 {
            byte == self.letter()
        } else if self.space_at(place) {
            byte == b' '
        } else {
            is_digit(byte)
        }
    }

    /// Whether a line of this form may have that many bytes.
    pub fn complete(self, length: usize) -> bool
        ensures { result ≡ complete self length }
    {
        match self {
            Form::Image => 4 <= length && length % 2 == 0,
            Form::Key | Form::Fetch | Form::Write | Form::Status => length == self.most(),
        }
    }

    // The first byte of a line that may not stand where it stands, or the length of the line.
    fn wrong_at(self, line: &[u8]) -> usize
        ensures is { result ≡ wrong_at self line.now }
        ensures inside { result ≤ length line.now }
    {
        line.iter()
            .enumerate()
            .position(|(place, byte)| !self.allows(place, *byte))
            .unwrap_or(line.len())
    }
}

// The form of a line whose letter is known, or the place at which it is garbled.
fn check_form(form: Form, line: &[u8]) -> Result<Form, Refusal>
    requires { length line.now ≤ 1024 }
    ensures means { MatchResult result (λ f. (f ≡ form) × (fits f line.now ≡ true)) (λ e. (e ≡ Garbled (wrong_at form line.now)) × (fits form line.now ≡ false)) }
{
    let wrong = form.wrong_at(line);
    if wrong == line.len() && form.complete(line.len()) {
        Ok(form)
    } else {
        Err(Refusal::Garbled { at: wrong as u32 })
    }
}

// The form of a line, or the place at which it is garbled.
pub(crate) fn check_line(line: &[u8]) -> Result<Form, Refusal>
    ensures means { MatchResult result (λ f. meaning line.now ≡ command_of f line.now) (λ e. meaning line.now ≡ refused e) }
    ensures long { IfOk result (λ f. complete f (length line.now) ≡ true) }
    ensures short { OnOk result (length line.now ≤ 1024) }
{
    if line.len() > MOST {
        return Err(Refusal::Garbled { at: MOST as u32 });
    }
    let form = line
        .first()
        .and_then(|letter| form_of(char::from(*letter)))
        .ok_or(Refusal::Garbled { at: 0 })?;
    check_form(form, line)
}
