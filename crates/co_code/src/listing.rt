ghost use Rattle.std.specs.Prelude.{◌≡◌, ◌++◌, [], decimal, OnOk};
ghost use Rattle.std.specs.Fmt.{signed_decimal};

use co_base::NoMemory;
use itoa::Buffer;
use sqlite_items::Items;
use std::alloc::Global;
use std::marker::Model;

/// The bytes of a listing under way. Contracts see the list.
#[derive(Drop)]
pub struct Listing {
    bytes: Vec<u8>,
}

impl Model for Listing {
    ghost use Rattle.std.specs.Prelude.{List, ℕ};

    ghost Value = { List ℕ };

    ghost view = { λ l. l.bytes.items };
}

impl Listing {
    pub fn new(alloc: Global) -> Listing
        ensures { result ≡ [] }
    {
        Listing {
            bytes: Vec::new(alloc),
        }
    }

    pub fn push(&mut self, words: &str) -> Result<(), NoMemory>
        ensures { OnOk result (self.new ≡ self.old ++ words.now) }
    {
        self.bytes.extend_from_slice(words.as_bytes())?;
        Ok(())
    }

    pub fn push_unsigned(&mut self, number: u64) -> Result<(), NoMemory>
        ensures { OnOk result (self.new ≡ self.old ++ decimal number) }
    {
        let mut buffer = Buffer::new();
        self.push(buffer.format(number))?;
        Ok(())
    }

    pub fn push_signed(&mut self, number: i64) -> Result<(), NoMemory>
        ensures { OnOk result (self.new ≡ self.old ++ signed_decimal number) }
    {
        let mut buffer = Buffer::new();
        self.push(buffer.format(number))?;
        Ok(())
    }

    pub fn into_items(self) -> Items<u8>
        ensures { result ≡ self }
    {
        let Listing { bytes } = self;
        Items::from_vec(bytes)
    }
}
