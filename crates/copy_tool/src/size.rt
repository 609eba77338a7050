ghost use Rattle.std.specs.Prelude.{◌≡◌, ◌≤◌};

/// So many cylinders, as the head of a volume file has them.
pub(crate) fn in_file(cylinders: u16) -> u8
    requires { cylinders ≤ 64 }
    ensures value { result ≡ cylinders }
    ensures most { result ≤ 64 }
{
    cylinders as u8
}
