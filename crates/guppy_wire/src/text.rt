//! The text of records, in parts.
ghost use Rattle.std.specs.Prelude.{◌≡◌, ◌≤◌, ◌+◌, ◌++◌, length, take};

/// The text of records, in three parts that stand one behind the other: the links' texts, which are most of it, are not
/// copied.
#[derive(Drop)]
pub struct RecordsText {
    pub(crate) front: String,
    pub(crate) links: String,
    pub(crate) details: String,
}

// Writes a text behind the first of the bytes.
fn write_at(out: &mut [u8], at: usize, text: &str)
    requires { at + length text.now ≤ length out.old }
    ensures written { take (at + length text.now) out.new ≡ take at out.old ++ text.now }
    ensures length { length out.new ≡ length out.old }
{
    out[at..at + text.len()].copy_from_slice(text.as_bytes());
}

impl RecordsText {
    ghost use Rattle.std.specs.Prelude.{◌≡◌, ◌≤◌, ◌^◌, None, length, take, IfSome};
    ghost use Rattle.guppy_wire.specs.Wire.{text_in};

    /// How many bytes the text has, where memory has so many. Constant time.
    pub fn len(&self) -> Option<usize>
        ensures len { IfSome result (λ len. len ≡ length (text_in self.now)) }
        ensures none { result ≡ None → 2 ^ 64 ≤ length (text_in self.now) }
    {
        let first = self.front.len().checked_add(self.links.len())?;
        first.checked_add(self.details.len())
    }

    /// Writes the text to the front of the bytes. Time linear in it.
    pub fn write_to(&self, out: &mut [u8])
        requires { length (text_in self.now) ≤ length out.old }
        ensures { take (length (text_in self.now)) out.new ≡ text_in self.now }
    {
        write_at(out, 0, self.front.as_str());
        write_at(out, self.front.len(), self.links.as_str());
        write_at(
            out,
            self.front.len() + self.links.len(),
            self.details.as_str(),
        );
    }
}
