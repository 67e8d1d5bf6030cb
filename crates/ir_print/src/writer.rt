//! The text that is being written.
ghost use Rattle.std.specs.Prelude.{◌≡◌, [], ◌++◌, ◌∷◌, codes, decimal, map, OnOk};
ghost use Rattle.std.specs.List.{flat_map};
ghost use Rattle.ir_core.specs.Text.{all_led, parted, in_spaces, line_text, spaced_words};

use ir_core::{List, Name, OutOfMemory};
use itoa::Buffer;
use std::alloc::Global;
use std::marker::Model;

/// A text that grows at its end. Contracts see its bytes.
#[derive(Drop)]
pub struct Writer {
    bytes: Vec<u8>,
}

impl Model for Writer {
    ghost use Rattle.std.specs.Prelude.{List, ℕ};

    ghost Value = { List ℕ };

    ghost view = { λ w. w.bytes.items };
}

/// What has a text.
pub trait Printed {
    ghost use Rattle.std.specs.Prelude.{List, ℕ};

    ghost text: { Self → List ℕ };

    /// Writes the text at the end.
    fn print(&self, out: &mut Writer) -> Result<(), OutOfMemory>
        ensures { OnOk result (out.new ≡ out.old ++ text self.now) };
}

impl Writer {
    /// A text with nothing in it.
    pub fn new(alloc: Global) -> Writer
        ensures { result ≡ [] }
    {
        Writer {
            bytes: Vec::new(alloc),
        }
    }

    /// What was written.
    pub fn into_list(self) -> List<u8>
        ensures { result ≡ self }
    {
        let Writer { bytes } = self;
        List::from_vec(bytes)
    }

    /// Writes a byte.
    pub fn byte(&mut self, byte: u8) -> Result<(), OutOfMemory>
        ensures { OnOk result (self.new ≡ self.old ++ byte ∷ []) }
    {
        self.bytes(&[byte])
    }

    /// Writes bytes as they stand.
    pub fn bytes(&mut self, bytes: &[u8]) -> Result<(), OutOfMemory>
        ensures { OnOk result (self.new ≡ self.old ++ bytes.now) }
    {
        self.bytes.extend_from_slice(bytes)?;
        Ok(())
    }

    /// Writes a text as it stands.
    pub fn text(&mut self, text: &str) -> Result<(), OutOfMemory>
        ensures { OnOk result (self.new ≡ self.old ++ text.now) }
    {
        self.bytes(text.as_bytes())
    }

    /// Writes a number in decimal.
    pub fn number(&mut self, number: u64) -> Result<(), OutOfMemory>
        ensures { OnOk result (self.new ≡ self.old ++ decimal number) }
    {
        let mut buffer = Buffer::new();
        self.text(buffer.format(number))
    }

    /// Writes lines as they stand.
    pub fn lines(&mut self, lines: &[Name]) -> Result<(), OutOfMemory>
        ensures { OnOk result (self.new ≡ self.old ++ flat_map line_text lines.now) }
    {
        for line in lines {
            self.bytes(line.as_slice())?;
            self.text("\n")?;
        }
        Ok(())
    }

    /// Writes words, each with a space behind it.
    pub fn spaced_words(&mut self, words: &[Name]) -> Result<(), OutOfMemory>
        ensures { OnOk result (self.new ≡ self.old ++ spaced_words words.now) }
    {
        for word in words {
            self.bytes(word.as_slice())?;
            self.text(" ")?;
        }
        Ok(())
    }

    /// Writes words, each with a space before it.
    pub fn led_words(&mut self, words: &[Name]) -> Result<(), OutOfMemory>
        ensures { OnOk result (self.new ≡ self.old ++ all_led (codes " ") words.now) }
    {
        for word in words {
            self.text(" ")?;
            self.bytes(word.as_slice())?;
        }
        Ok(())
    }

    /// Writes items one behind the other.
    pub fn each<T: Printed>(&mut self, items: &[T]) -> Result<(), OutOfMemory>
        ensures { OnOk result (self.new ≡ self.old ++ flat_map T.text items.now) }
    {
        for item in items {
            item.print(self)?;
        }
        Ok(())
    }

    /// Writes items, each with the separator before it.
    pub fn led<T: Printed>(&mut self, separator: &str, items: &[T]) -> Result<(), OutOfMemory>
        ensures { OnOk result (self.new ≡ self.old ++ all_led separator.now (map T.text items.now)) }
    {
        for item in items {
            self.text(separator)?;
            item.print(self)?;
        }
        Ok(())
    }

    /// Writes items with the separator between them.
    pub fn parted<T: Printed>(&mut self, separator: &str, items: &[T]) -> Result<(), OutOfMemory>
        ensures { OnOk result (self.new ≡ self.old ++ parted separator.now (map T.text items.now)) }
    {
        match items.split_first() {
            None => Ok(()),
            Some((first, rest)) => {
                first.print(self)?;
                self.led(separator, rest)
            }
        }
    }

    /// Writes items with the separator between them and a space on each side; one space where there are none.
    pub fn in_spaces<T: Printed>(&mut self, separator: &str, items: &[T]) -> Result<(), OutOfMemory>
        ensures { OnOk result (self.new ≡ self.old ++ in_spaces separator.now (map T.text items.now)) }
    {
        self.text(" ")?;
        if items.is_empty() {
            return Ok(());
        }
        self.parted(separator, items)?;
        self.text(" ")
    }
}
