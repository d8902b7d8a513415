//! Bytes that are written one after another.
ghost use Rattle.std.specs.Prelude.{◌≡◌, ◌≢◌, ◌++◌, All, IfOk, OnOk, decimal, true, []};
ghost use Rattle.pg_page.specs.Escaping.{IsInert, Written, shown, shown_byte, label_byte, labelled};

use itoa::Buffer;
use std::alloc::{AllocError, Global};
use std::marker::Model;
use std::slice::from_ref;

/// Bytes that are written one after another. Where memory is wanting for some they are left out,
/// and so is the whole then: who writes needn't look at each step.
pub struct Sheet {
    bytes: Vec<u8>,
    is_whole: bool,
}

impl Drop for Sheet {
    fn drop(self) {
        let Sheet {
            bytes: _,
            is_whole: _,
        } = self;
    }
}

impl Model for Sheet {
    ghost use Rattle.pg_page.specs.Escaping.{Written};

    ghost Value = { Written };

    ghost view = { λ sheet. record { bytes = sheet.bytes.items; whole = sheet.is_whole } };
}

impl Sheet {
    pub fn new(alloc: Global) -> Sheet
        ensures { result ≡ record { bytes = []; whole = true } }
    {
        Sheet {
            bytes: Vec::new(alloc),
            is_whole: true,
        }
    }

    /// What was written, if nothing is missing in it.
    pub fn into_bytes(self) -> Result<Vec<u8>, AllocError>
        ensures { IfOk result (λ bytes. (self.whole ≡ true) × (bytes.items ≡ self.bytes)) }
    {
        let Sheet { bytes, is_whole } = self;
        if is_whole { Ok(bytes) } else { Err(AllocError) }
    }

    /// Adds a text as it is.
    pub fn put(&mut self, text: &str)
        ensures added { self.new.whole ≡ true → self.new.bytes ≡ self.old.bytes ++ text.now }
        ensures whole { self.new.whole ≡ true → self.old.whole ≡ true }
    {
        self.put_bytes(text.as_bytes());
    }

    fn put_bytes(&mut self, bytes: &[u8])
        ensures added { self.new.whole ≡ true → self.new.bytes ≡ self.old.bytes ++ bytes.now }
        ensures whole { self.new.whole ≡ true → self.old.whole ≡ true }
    {
        if self.bytes.extend_from_slice(bytes).is_err() {
            self.is_whole = false;
        }
    }

    pub fn number(&mut self, number: u64)
        ensures added { self.new.whole ≡ true → self.new.bytes ≡ self.old.bytes ++ decimal number }
        ensures whole { self.new.whole ≡ true → self.old.whole ≡ true }
    {
        let mut digits = Buffer::new();
        self.put(digits.format(number));
    }

    /// Adds a text of others to a page of HTML: nothing in it is a tag, nor ends the value of an
    /// attribute.
    #[tactic(auto, using(crate::proofs::Escaped::inert))]
    pub fn show(&mut self, text: &[u8])
        ensures added { self.new.whole ≡ true → self.new.bytes ≡ self.old.bytes ++ shown text.now }
        ensures inert { All IsInert (shown text.now) }
        ensures whole { self.new.whole ≡ true → self.old.whole ≡ true }
    {
        if put_shown(text, &mut self.bytes).is_err() {
            self.is_whole = false;
        }
    }

    /// Adds a text of others between the quotes of a label of a metric: it has no end of a line.
    #[tactic(auto, using(crate::proofs::Escaped::one_line))]
    pub fn label(&mut self, text: &[u8])
        ensures added { self.new.whole ≡ true → self.new.bytes ≡ self.old.bytes
            ++ labelled text.now }
        ensures line { All (λ b. b ≢ 10) (labelled text.now) }
        ensures whole { self.new.whole ≡ true → self.old.whole ≡ true }
    {
        if put_labelled(text, &mut self.bytes).is_err() {
            self.is_whole = false;
        }
    }
}

fn put_shown(text: &[u8], out: &mut Vec<u8>) -> Result<(), AllocError>
    ensures { OnOk result (out.new.items ≡ out.old.items ++ shown text.now) }
{
    for byte in text {
        out.extend_from_slice(shown_byte(byte))?;
    }
    Ok(())
}

fn put_labelled(text: &[u8], out: &mut Vec<u8>) -> Result<(), AllocError>
    ensures { OnOk result (out.new.items ≡ out.old.items ++ labelled text.now) }
{
    for byte in text {
        out.extend_from_slice(label_byte(byte))?;
    }
    Ok(())
}

/// What stands for a byte of a text in a page.
fn shown_byte(byte: &u8) -> &[u8]
    ensures { result.now ≡ shown_byte byte.now }
{
    match *byte {
        b'<' => b"&lt;",
        b'>' => b"&gt;",
        b'&' => b"&amp;",
        b'"' => b"&quot;",
        b'\'' => b"&#39;",
        b' '..=b'~' => from_ref(byte),
        _ => b"?",
    }
}

/// What stands for a byte of a text between the quotes of a label.
fn label_byte(byte: &u8) -> &[u8]
    ensures { result.now ≡ label_byte byte.now }
{
    match *byte {
        b'\\' => b"\\\\",
        b'"' => b"\\\"",
        b'\n' => b"\\n",
        b' '..=b'~' => from_ref(byte),
        _ => b"?",
    }
}
