// A buffer that is written from its front on: each part behind the last.
ghost use Rattle.std.specs.Prelude.{◌≡◌, ◌≤◌, length, ◌∷◌, []};
ghost use Rattle.logic.specs.Text.{decimal};
ghost use Rattle.digits.specs.Puts.{Appends};

// A buffer, and the place behind what is written. What has no place in the buffer is not written, but counted.
#[derive(Drop)]
pub struct Writer<'a> {
    pub out: &'a mut [u8],
    pub at: usize,
}

impl<'a> Writer<'a> {
    pub fn new(out: &'a mut [u8]) -> Writer<'a>
        ensures same_buffer { result.out.ghost_name ≡ out.entry.ghost_name }
        ensures unwritten { (result.out.now ≡ out.old) × (result.at ≡ 0) }
    {
        Writer { out, at: 0 }
    }

    // Puts a text.
    pub fn text(&mut self, text: &[u8])
        ensures same_buffer { self.new.out.ghost_name ≡ self.old.out.ghost_name }
        ensures put { Appends self.old.out.now self.old.at text.now self.new.out.now self.new.at }
    {
        crate::put_text(self.out, self.at, text);
        self.at = self.at.saturating_add(text.len());
    }

    // Puts a byte.
    pub fn byte(&mut self, byte: u8)
        ensures same_buffer { self.new.out.ghost_name ≡ self.old.out.ghost_name }
        ensures put { Appends self.old.out.now self.old.at (byte ∷ []) self.new.out.now self.new.at }
    {
        crate::put_byte(self.out, self.at, 0, byte);
        self.at = self.at.saturating_add(1);
    }

    // Puts a number in decimal. Most have one digit, which is put without a call.
    #[tactic(auto, using(crate::proofs::Put::decimal_one))]
    pub fn number(&mut self, n: u64)
        ensures same_buffer { self.new.out.ghost_name ≡ self.old.out.ghost_name }
        ensures put { Appends self.old.out.now self.old.at (decimal n) self.new.out.now self.new.at }
        ensures few { length (decimal n) ≤ 20 }
    {
        if n < 10 {
            self.byte(48 + n as u8);
            return;
        }
        let k = crate::put_decimal(self.out, self.at, n);
        self.at = self.at.saturating_add(k);
    }

    // Puts a number of 16 bits, which has five digits at most.
    #[tactic(auto, using(crate::proofs::Put::five_digits))]
    pub fn short(&mut self, n: u16)
        ensures same_buffer { self.new.out.ghost_name ≡ self.old.out.ghost_name }
        ensures put { Appends self.old.out.now self.old.at (decimal n) self.new.out.now self.new.at }
        ensures few { length (decimal n) ≤ 5 }
    {
        self.number(u64::from(n));
    }
}
