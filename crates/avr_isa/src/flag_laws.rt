// What the flags say of the whole numbers that an instruction adds or takes away.
ghost use Rattle.std.specs.Prelude.{◌≡◌, ◌+◌, ◌%◌, ◌<◌, ◌≤◌, ◌↔◌, ◌&&◌, ℕ, pos, ◌+ℤ◌, ◌-ℤ◌, IsTrue, IsFalse};
ghost use Rattle.avr_isa.specs.declared.flags.Flags.{Flags};
ghost use Rattle.avr_isa.specs.Signed.{signed, IsSignedByte, signed_word, IsSignedWord};
ghost use Rattle.avr_isa.specs.Flags.{is_set, differ, with_flags, sum_of, flags_of_sum, difference_of, flags_of_difference, sticky, flags_of_count};
ghost use Rattle.avr_isa.specs.Flags.{flags_of_wide_sum, flags_of_wide_difference};

/// Laws of ADD and ADC, for two bytes and a carry: C is set exactly where the sum passes 255, H exactly where the sum of the low four bits
/// passes 15, and V exactly where the sum of the signed numbers fits no signed byte.
pub fn sums_set_flags()
    ensures carry { (a b c : ℕ) → IsTrue (flags_of_sum a b c).carry ↔ (256 ≤ a + b + c) }
    ensures half_carry { (a b c : ℕ) → IsTrue (flags_of_sum a b c).half_carry ↔ (16 ≤ a % 16 + b % 16 + c) }
    ensures zero { (a b c : ℕ) → IsTrue (flags_of_sum a b c).zero ↔ (sum_of a b c ≡ 0) }
    ensures negative { (a b c : ℕ) → IsTrue (flags_of_sum a b c).negative ↔ (128 ≤ sum_of a b c) }
    ensures overflow { (a b c : ℕ) → a < 256 → b < 256 → c < 2 → IsTrue (flags_of_sum a b c).overflow → IsSignedByte (signed a +ℤ signed b +ℤ pos c) → ⊥ }
    ensures no_overflow { (a b c : ℕ) → a < 256 → b < 256 → c < 2 → IsFalse (flags_of_sum a b c).overflow → IsSignedByte (signed a +ℤ signed b +ℤ pos c) }
{}

/// Laws of SUB, SBC, SUBI, SBCI, CP, CPC, CPI and NEG, for two bytes and a borrow: C is set exactly where the byte is less than what is taken
/// away, H exactly where its low four bits are less than those taken away, and V exactly where the difference of the signed numbers fits no signed byte.
pub fn differences_set_flags()
    ensures carry { (a b c : ℕ) → IsTrue (flags_of_difference a b c).carry ↔ (a < b + c) }
    ensures half_carry { (a b c : ℕ) → IsTrue (flags_of_difference a b c).half_carry ↔ (a % 16 < b % 16 + c) }
    ensures zero { (a b c : ℕ) → IsTrue (flags_of_difference a b c).zero ↔ (difference_of a b c ≡ 0) }
    ensures negative { (a b c : ℕ) → IsTrue (flags_of_difference a b c).negative ↔ (128 ≤ difference_of a b c) }
    ensures overflow { (a b c : ℕ) → a < 256 → b < 256 → c < 2 → IsTrue (flags_of_difference a b c).overflow → IsSignedByte (signed a -ℤ signed b -ℤ pos c)
        → ⊥ }
    ensures no_overflow { (a b c : ℕ) → a < 256 → b < 256 → c < 2 → IsFalse (flags_of_difference a b c).overflow
        → IsSignedByte (signed a -ℤ signed b -ℤ pos c) }
{}

/// A law of SBC, SBCI and CPC: Z is set exactly where the result is 0 and Z was set.
pub fn zero_is_sticky()
    ensures { (sreg : ℕ) (f : Flags) → IsTrue (sticky sreg f).zero ↔ (IsTrue f.zero × IsTrue (is_set 1 sreg)) }
{}

/// Laws of ADIW and SBIW, for a number of sixteen bits and a constant of six: C and V are set exactly where the number without a sign, and
/// the signed one, does not fit sixteen bits.
pub fn wide_flags()
    ensures sum_carry { (s a k : ℕ) → IsTrue (flags_of_wide_sum s a k).carry ↔ (65536 ≤ a + k) }
    ensures sum_overflow { (s a k : ℕ) → a < 65536 → k < 64 → IsTrue (flags_of_wide_sum s a k).overflow → IsSignedWord (signed_word a +ℤ pos k) → ⊥ }
    ensures no_sum_overflow { (s a k : ℕ) → a < 65536 → k < 64 → IsFalse (flags_of_wide_sum s a k).overflow → IsSignedWord (signed_word a +ℤ pos k) }
    ensures difference_carry { (s a k : ℕ) → IsTrue (flags_of_wide_difference s a k).carry ↔ (a < k) }
    ensures difference_overflow { (s a k : ℕ) → a < 65536 → k < 64 → IsTrue (flags_of_wide_difference s a k).overflow
        → IsSignedWord (signed_word a -ℤ pos k) → ⊥ }
    ensures no_difference_overflow { (s a k : ℕ) → a < 65536 → k < 64 → IsFalse (flags_of_wide_difference s a k).overflow
        → IsSignedWord (signed_word a -ℤ pos k) }
{}

/// Laws of INC and DEC, for a byte: V is set exactly where 127 becomes -128, and where -128 becomes 127.
pub fn counts_set_overflow()
    ensures increment { (sreg a : ℕ) → a < 256 → IsTrue (flags_of_count sreg ((a + 1) % 256) 0x80).overflow ↔ (a ≡ 127) }
    ensures decrement { (sreg a : ℕ) → a < 256 → IsTrue (flags_of_count sreg ((a + 255) % 256) 0x7F).overflow ↔ (a ≡ 128) }
{}

/// Laws of SREG: each flag stands in its bit, S is N exclusive or V, and T and I stay.
pub fn flags_stand_in_sreg()
    ensures carry { (s : ℕ) (f : Flags) → is_set 0 (with_flags s f) ≡ f.carry }
    ensures zero { (s : ℕ) (f : Flags) → is_set 1 (with_flags s f) ≡ f.zero }
    ensures negative { (s : ℕ) (f : Flags) → is_set 2 (with_flags s f) ≡ f.negative }
    ensures overflow { (s : ℕ) (f : Flags) → is_set 3 (with_flags s f) ≡ f.overflow }
    ensures sign { (s : ℕ) (f : Flags) → is_set 4 (with_flags s f) ≡ differ f.negative f.overflow }
    ensures half_carry { (s : ℕ) (f : Flags) → is_set 5 (with_flags s f) ≡ f.half_carry }
    ensures stored_bit { (s : ℕ) (f : Flags) → is_set 6 (with_flags s f) ≡ is_set 6 s }
    ensures interrupts { (s : ℕ) (f : Flags) → is_set 7 (with_flags s f) ≡ is_set 7 s }
{}
