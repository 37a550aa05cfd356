//! The names that rooms may have.
ghost use Rattle.std.specs.Prelude.{◌≡◌, string_bytes};
ghost use Rattle.std.specs.List.{list_all};
ghost use Rattle.ws_server.specs.Names.{is_name_byte, is_name, are_different, names_fit};

// How many rooms a hall may have.
const MOST_ROOMS: usize = 64;

// How many characters a name may have.
const MOST_CHARACTERS: usize = 32;

/// Whether a hall may have rooms of these names: 1 to 64, all different, each 1 to 32 characters of `a` to `z`, `0` to
/// `9` and `-`. Compares each name with those after it.
pub fn names_fit(names: &[String]) -> bool
    ensures { result ≡ names_fit names.now }
{
    !names.is_empty() && names.len() <= MOST_ROOMS && are_names(names) && are_different(names)
}

fn are_names(names: &[String]) -> bool
    ensures { result ≡ list_all (λ name. is_name (string_bytes name)) names.now }
{
    names.iter().all(|name| is_name(name.as_str()))
}

fn is_name(name: &str) -> bool
    ensures { result ≡ is_name name.now }
{
    !name.is_empty() && name.len() <= MOST_CHARACTERS && has_name_bytes(name.as_bytes())
}

fn has_name_bytes(name: &[u8]) -> bool
    ensures { result ≡ list_all is_name_byte name.now }
{
    name.iter().all(|byte| is_name_byte(*byte))
}

fn is_name_byte(byte: u8) -> bool
    ensures { result ≡ is_name_byte byte }
{
    byte.is_ascii_lowercase() || byte.is_ascii_digit() || byte == b'-'
}

fn are_different(names: &[String]) -> bool
    ensures { result ≡ are_different names.now }
{
    match names.split_first() {
        None => true,
        Some((first, rest)) => !rest.contains(first) && are_different(rest),
    }
}
