// Pages: where a text is written into room that was reserved, or where its bytes are counted.
ghost use Rattle.std.specs.Prelude.{◌≡◌, ◌+◌, ◌-◌, ◌∷◌, ◌≤◌, Some, IfSome, vec_len, vec_capacity, option_map};
ghost use Rattle.std.specs.Fmt.{decimal, signed_decimal};
ghost use Rattle.dir_bytes.specs.{Causes.last_moment, FieldTexts.{moment_text, address_text, hex_text, base64_text}};
ghost use Rattle.item_terms.specs.Bytes.{space};
ghost use Rattle.text_page.specs.Pages as pages;

use crate::room::{append, append_base64, append_hex, append_moment, append_word};
use std::marker::Model;

/// Where texts are put one behind another: into the room of a vector, or nowhere, so that their bytes are counted alone. It takes
/// no memory. Where it has no room for a text it is spilt, and takes nothing any more. Contracts see what stands on it and how many
/// bytes more it takes, and None of one that is spilt.
#[derive(Drop)]
pub struct Page {
    bytes: Option<Vec<u8>>,
    left: usize,
    spilt: bool,
}

impl Model for Page {
    ghost use Rattle.std.specs.Prelude.{Option, ◌≤◌, ◌+◌, IfSome, vec_len, vec_capacity, cond, Some, None, option_map};
    ghost use Rattle.text_page.specs.Pages.{Sheet};

    ghost Value = { Option Sheet };

    ghost view = { λ p. cond p.spilt None (Some (record { text = option_map (λ v. v.items) p.bytes; left = p.left })) };

    ghost invariant = { λ p. IfSome p.bytes (λ v. vec_len v + p.left ≤ vec_capacity v) };
}

impl Page {
    /// A page on which bytes are counted, and not kept.
    pub fn counting() -> Page
        ensures { result ≡ Some pages.blank }
    {
        Page {
            bytes: None,
            left: usize::MAX,
            spilt: false,
        }
    }

    /// A page that is a vector's room.
    pub fn filling(bytes: Vec<u8>) -> Page
        ensures { result ≡ Some (pages.room_behind bytes.items (vec_capacity bytes - vec_len bytes)) }
    {
        let left = bytes.capacity() - bytes.len();
        Page {
            bytes: Some(bytes),
            left,
            spilt: false,
        }
    }

    /// How many bytes were counted on it; none where they were too many to count.
    pub fn count(&self) -> Option<usize>
        ensures { result ≡ pages.count_of self.now }
    {
        if self.spilt {
            None
        } else {
            Some(usize::MAX - self.left)
        }
    }

    /// The vector again, where it has one.
    pub fn into_bytes(self) -> Option<Vec<u8>>
        ensures text { IfSome self (λ sheet. option_map (λ bytes. bytes.items) result ≡ sheet.text) }
        ensures room { IfSome self (λ sheet. IfSome result (λ bytes. vec_len bytes + sheet.left ≤ vec_capacity bytes)) }
    {
        self.bytes
    }

    /// Whether it takes so many bytes more.
    fn has_room(&self, count: usize) -> bool
        ensures { result ≡ pages.has_room self.now count }
    {
        !self.spilt && count <= self.left
    }

    /// Puts bytes there.
    #[tactic(auto, unfolding(crate::specs::Pages::with_text))]
    pub fn put(&mut self, text: &[u8])
        ensures { self.new ≡ pages.with_text self.old text.now }
    {
        if !self.has_room(text.len()) {
            self.spilt = true;
            return;
        }
        self.left -= text.len();
        if let Some(bytes) = &mut self.bytes {
            append(bytes, text);
        }
    }

    /// Puts a word behind a space there.
    #[tactic(auto, unfolding(crate::specs::Pages::with_text))]
    pub fn put_word(&mut self, word: &[u8])
        ensures { self.new ≡ pages.with_text self.old (space ∷ word.now) }
    {
        let count = word.len() + 1;
        if !self.has_room(count) {
            self.spilt = true;
            return;
        }
        self.left -= count;
        if let Some(bytes) = &mut self.bytes {
            append_word(bytes, word);
        }
    }

    /// Puts a number in decimal digits there.
    pub fn put_number(&mut self, number: u64)
        ensures { self.new ≡ pages.with_text self.old (decimal number) }
    {
        let mut buffer = itoa::Buffer::new();
        self.put(buffer.format(number).as_bytes());
    }

    /// Puts a number in decimal digits there, behind a `-` where it is negative.
    pub fn put_signed(&mut self, number: i32)
        ensures { self.new ≡ pages.with_text self.old (signed_decimal number) }
    {
        let mut buffer = itoa::Buffer::new();
        self.put(buffer.format(number).as_bytes());
    }

    /// Puts a moment there, as a date and a time of day.
    #[tactic(auto, unfolding(crate::specs::Pages::with_text), using(crate::proofs::Lengths::lengths))]
    pub fn put_moment(&mut self, moment: u64)
        requires { moment ≤ last_moment }
        ensures { self.new ≡ pages.with_text self.old (moment_text moment) }
    {
        if !self.has_room(19) {
            self.spilt = true;
            return;
        }
        self.left -= 19;
        if let Some(bytes) = &mut self.bytes {
            append_moment(bytes, moment);
        }
    }

    /// Puts an IPv4 address there, its first byte highest.
    #[tactic(auto, using(crate::proofs::Pages::pages), unfolding(dir_bytes::specs::FieldTexts::address_text))]
    pub fn put_address(&mut self, ip: u32)
        ensures { self.new ≡ pages.with_text self.old (address_text ip) }
    {
        let ip = ip as u64;
        self.put_number(ip / 16777216);
        self.put(b".");
        self.put_number(ip / 65536 % 256);
        self.put(b".");
        self.put_number(ip / 256 % 256);
        self.put(b".");
        self.put_number(ip % 256);
    }

    /// Puts twenty bytes there as forty hex digits, in upper case.
    #[tactic(auto, unfolding(crate::specs::Pages::with_text), using(crate::proofs::Lengths::lengths))]
    pub fn put_hex(&mut self, digest: &[u8; 20])
        ensures { self.new ≡ pages.with_text self.old (hex_text digest.now) }
    {
        if !self.has_room(40) {
            self.spilt = true;
            return;
        }
        self.left -= 40;
        if let Some(bytes) = &mut self.bytes {
            append_hex(bytes, digest);
        }
    }

    /// Puts twenty bytes there in base64, without `=`.
    #[tactic(auto, unfolding(crate::specs::Pages::with_text), using(crate::proofs::Lengths::lengths))]
    pub fn put_digest1(&mut self, digest: &[u8; 20])
        ensures { self.new ≡ pages.with_text self.old (base64_text digest.now) }
    {
        if !self.has_room(27) {
            self.spilt = true;
            return;
        }
        self.left -= 27;
        if let Some(bytes) = &mut self.bytes {
            append_base64(bytes, digest);
        }
    }

    /// Puts thirty-two bytes there in base64, without `=`.
    #[tactic(auto, unfolding(crate::specs::Pages::with_text), using(crate::proofs::Lengths::lengths))]
    pub fn put_digest2(&mut self, digest: &[u8; 32])
        ensures { self.new ≡ pages.with_text self.old (base64_text digest.now) }
    {
        if !self.has_room(43) {
            self.spilt = true;
            return;
        }
        self.left -= 43;
        if let Some(bytes) = &mut self.bytes {
            append_base64(bytes, digest);
        }
    }
}
