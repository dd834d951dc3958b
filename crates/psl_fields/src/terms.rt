//! What a term is.
ghost use Rattle.std.specs.Prelude.{◌≡◌, ◌&&◌, ◌||◌, ◌==◌, is_some, nat_le};
ghost use Rattle.std.specs.List.{list_all};
ghost use Rattle.qe_text.specs.Names.{is_letter, is_word, is_name};
ghost use Rattle.psl_rules.specs.Parts.{text_in, name_in, is_list_of_names};
ghost use Rattle.psl_rules.specs.Arguments as spec;

use psl_text::Term;

fn is_letter(byte: u8) -> bool
    ensures { result ≡ is_letter byte }
{
    byte.is_ascii_alphabetic()
}

fn is_word(byte: u8) -> bool
    ensures { result ≡ is_word byte }
{
    byte.is_ascii_alphanumeric() || byte == b'_'
}

fn are_word(bytes: &[u8]) -> bool
    ensures { result ≡ list_all is_word bytes.now }
{
    bytes.iter().all(|byte| is_word(*byte))
}

/// Whether a text is a letter, then letters, digits and low lines.
fn is_name(text: &[u8]) -> bool
    ensures { result ≡ is_name text.now }
{
    match text {
        [] => false,
        [first, rest @ ..] => is_letter(*first) && are_word(rest),
    }
}

/// Whether a term is a string.
pub fn is_text(term: &Term) -> bool
    ensures { result ≡ spec.takes_text term.now }
{
    match term {
        Term::Text(_, _) => true,
        Term::Number(_, _) | Term::Name(_) | Term::Call(_, _) | Term::List(_, _) => false,
    }
}

/// Whether a term is a string that could be a name.
pub fn is_name_text(term: &Term) -> bool
    ensures { result ≡ spec.takes_name_text term.now }
{
    match term {
        Term::Text(text, _) => is_name(text.as_str().as_bytes()),
        Term::Number(_, _) | Term::Name(_) | Term::Call(_, _) | Term::List(_, _) => false,
    }
}

/// Whether a term is a plain name.
pub fn is_plain_name(term: &Term) -> bool
    ensures { result ≡ spec.takes_name term.now }
{
    match term {
        Term::Name(_) => true,
        Term::Text(_, _) | Term::Number(_, _) | Term::Call(_, _) | Term::List(_, _) => false,
    }
}

fn are_plain_names(terms: &[Term]) -> bool
    ensures { result ≡ list_all (λ term. is_some (name_in term)) terms.now }
{
    terms.iter().all(|term| is_plain_name(term))
}

/// Whether a term is a list of plain names.
pub fn is_list_of_names(term: &Term) -> bool
    ensures { result ≡ is_list_of_names term.now }
{
    match term {
        Term::List(items, _) => are_plain_names(items.as_slice()),
        Term::Text(_, _) | Term::Number(_, _) | Term::Name(_) | Term::Call(_, _) => false,
    }
}
