// The names of the mappings.
ghost use Rattle.std.specs.Prelude.{◌≡◌};
ghost use Rattle.std.specs.Result.{result_ok};
ghost use Rattle.encodings.specs.Names.{name_of};

// A mapping, by name.
#[derive(Clone, Copy, Debug, PartialEq, Eq)]
pub enum Name {
    FullRegular,
}

// Bytes that name no mapping.
#[derive(Clone, Copy, Debug, PartialEq, Eq)]
pub struct UnknownName;

// The mapping that bytes name.
impl TryFrom<&[u8]> for Name {
    type Error = UnknownName;

    ghost try_from_gives = { λ bytes r. result_ok r ≡ name_of bytes.now };

    fn try_from(bytes: &[u8]) -> Result<Name, UnknownName> {
        match bytes {
            b"FR" => Ok(Name::FullRegular),
            _ => Err(UnknownName),
        }
    }
}
