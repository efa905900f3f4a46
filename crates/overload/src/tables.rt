// The rows as numbers, and the functions that read them. A line of a table is one number, whose entries are digits of it, the first on the right.
// `tools/rows` writes the lines from specs/Rows.antt.
ghost use Rattle.std.specs.Prelude.{◌≡◌, ℕ, ◌+◌, ◌*◌, ◌/◌, ◌<◌, slice_index_or, MatchOption, ⊤};
ghost use Rattle.overload.specs.Rows.{row_at, operand_count};
ghost use Rattle.overload.specs.inner.Code.{digit_of, asked_of, entry, place_of, placed, stop_of, slot_t, RowLine, Word, Starts, Sizes, Scalars, Reached, has, member, set_of, mem_size, size_of_no, family_of, sizes_of};

// The line of a table at a number, or what stands past its last.
pub fn line<T: Copy + Drop>(lines: &[T], k: usize, past: T) -> T
    ensures { result ≡ slice_index_or lines.now k past }
{
    lines.get(k).copied().unwrap_or(past)
}

// By row: the count of operands; where its families begin; up to which place they are tried in turn, 0 where only the first is;
// and for the forms of the first and last operand (0 scalar, 1 vector, 2 matrix; 3 times the first plus the last) the place of its first family, or f for none.
const ROWS: [u64; 54] = [
    0x1_00_0_ffff0fff0, // 0 negating_bool
    0x1_01_0_ffff0fff0, // 1 negating
    0x1_02_0_ffff0fff0, // 2 complementing
    0x2_03_0_ffffffff0, // 3 logical
    0x2_04_0_3fff01f20, // 4 additive
    0x2_08_0_753601420, // 5 multiplicative
    0x2_10_0_ffff01f20, // 6 dividing
    0x2_13_0_ffff0fff0, // 7 equality
    0x2_14_0_ffff0fff0, // 8 ordering
    0x2_15_2_ffff0fff0, // 9 bitwise
    0x2_17_0_ffff0fff0, // 10 exclusive
    0x2_18_0_ffff0fff0, // 11 shifting
    0x1_19_0_ffff0fff0, // 12 one_float
    0x2_1a_0_ffff0fff0, // 13 two_floats
    0x3_1b_0_ffff0fff0, // 14 three_floats
    0x3_1c_0_ffff01ff0, // 15 mixing
    0x1_1e_0_ffff0fff0, // 16 one_numeric
    0x2_1f_0_ffff0fff0, // 17 two_numerics
    0x3_20_0_ffff0fff0, // 18 three_numerics
    0x1_21_0_ffff0fff0, // 19 one_bits
    0x3_22_0_fffff0ff0, // 20 extracting
    0x4_23_0_fffff0ff0, // 21 inserting
    0x1_24_0_ffff0fff0, // 22 measuring
    0x2_25_0_ffff0fff0, // 23 distancing
    0x2_26_0_ffff0ffff, // 24 dotting
    0x1_27_0_ffff0ffff, // 25 one_float_vector
    0x2_28_0_ffff0ffff, // 26 two_float_vectors
    0x3_29_0_ffff0ffff, // 27 three_float_vectors
    0x3_2a_0_fffff0fff, // 28 refracting
    0x2_2b_0_ffff0ffff, // 29 crossing
    0x1_2c_0_0ffffffff, // 30 square_matrix
    0x1_2d_0_0ffffffff, // 31 transposing
    0x1_2e_0_ffff0fff0, // 32 one_f32
    0x1_2f_0_ffff0fff0, // 33 frexp_of
    0x1_30_0_ffff0fff0, // 34 modf_of
    0x1_31_0_ffff0ffff, // 35 packing4_f32
    0x1_32_0_ffff0ffff, // 36 packing4_i32
    0x1_33_0_ffff0ffff, // 37 packing4_u32
    0x1_34_0_ffff0ffff, // 38 packing2_f32
    0x1_35_0_ffffffff0, // 39 unpacking4_f32
    0x1_36_0_ffffffff0, // 40 unpacking4_i32
    0x1_37_0_ffffffff0, // 41 unpacking4_u32
    0x1_38_0_ffffffff0, // 42 unpacking2_f32
    0x2_39_0_ffffffff0, // 43 packed_dot_u32
    0x2_3a_0_ffffffff0, // 44 packed_dot_i32
    0x1_3b_0_ffff0fff0, // 45 one_bool
    0x3_3c_0_ffff10ff0, // 46 selecting
    0x1_3e_0_ffff0fff0, // 47 one_concrete
    0x1_3f_0_ffffffff0, // 48 voting
    0x1_40_0_ffffffff0, // 49 balloting
    0x0_41_0_ffffffff0, // 50 electing
    0x2_42_0_fffff0ff0, // 51 of_lane
    0x2_43_0_fffff0ff0, // 52 shuffling
    0x2_44_0_ffff0fff0, // 53 scaling
];
// What stands past the last.
const NO_ROW: u64 = 0x0_00_0_fffffffff;

// The line of a row.
pub fn row_line(row: usize) -> u64
    ensures { RowLine row result }
{
    line(&ROWS, row, NO_ROW)
}

// By family: the numbers of its second set, of its set of T and of its list of sizes; by which operands its size is found; its wrapping; form and component of
// its result and of four parameters, the first on the right; the count of its parameters.
const FAMILIES: [u64; 69] = [
    0x0_0_5_0_0_90_90_90_90_90_1, // 0 negating_bool: (N) to N; T only bool; wides
    0x0_1_5_0_0_90_90_90_90_90_1, // 1 negating: (N) to N; T signed; wides
    0x0_2_5_0_0_90_90_90_90_90_1, // 2 complementing: (N) to N; T integer; wides
    0x0_0_0_0_0_90_90_90_90_90_2, // 3 logical: (N, N) to N; T only bool; scalars
    0x0_3_5_0_0_90_90_90_90_90_2, // 4 additive: (N, N) to N; T numeric; wides
    0x0_3_4_0_0_90_90_90_91_90_2, // 5 additive: (N, E) to N; T numeric; vectors
    0x0_3_4_1_0_90_90_90_90_91_2, // 6 additive: (E, N) to N; T numeric; vectors
    0x0_4_6_0_0_90_90_90_90_90_2, // 7 additive: (N, N) to N; T float; matrices
    0x0_3_5_0_0_90_90_90_90_90_2, // 8 multiplicative: (N, N) to N; T numeric; wides
    0x0_3_4_0_0_90_90_90_91_90_2, // 9 multiplicative: (N, E) to N; T numeric; vectors
    0x0_3_4_1_0_90_90_90_90_91_2, // 10 multiplicative: (E, N) to N; T numeric; vectors
    0x0_4_6_0_0_90_90_90_91_90_2, // 11 multiplicative: (N, E) to N; T float; matrices
    0x0_4_6_1_0_90_90_90_90_91_2, // 12 multiplicative: (E, N) to N; T float; matrices
    0x0_4_6_0_0_93_90_90_92_90_2, // 13 multiplicative: (N, vec_c) to vec_r; T float; matrices
    0x0_4_7_1_0_92_90_90_90_93_2, // 14 multiplicative: (vec_r, N) to vec_c; T float; matrices_by_rows
    0x0_4_9_2_0_90_90_90_95_94_2, // 15 multiplicative: (matKxR, matCxK) to N; T float; products
    0x0_3_5_0_0_90_90_90_90_90_2, // 16 dividing: (N, N) to N; T numeric; wides
    0x0_3_4_0_0_90_90_90_91_90_2, // 17 dividing: (N, E) to N; T numeric; vectors
    0x0_3_4_1_0_90_90_90_90_91_2, // 18 dividing: (E, N) to N; T numeric; vectors
    0x0_5_5_0_0_00_90_90_90_90_2, // 19 equality: (N, N) to N of bool; T bool ∷ numeric; wides
    0x0_3_5_0_0_00_90_90_90_90_2, // 20 ordering: (N, N) to N of bool; T numeric; wides
    0x0_2_5_0_0_90_90_90_90_90_2, // 21 bitwise: (N, N) to N; T integer; wides
    0x0_0_5_0_0_90_90_90_90_90_2, // 22 bitwise: (N, N) to N; T only bool; wides
    0x0_2_5_0_0_90_90_90_90_90_2, // 23 exclusive: (N, N) to N; T integer; wides
    0x0_2_5_0_0_90_90_90_40_90_2, // 24 shifting: (N, N of u32) to N; T integer; wides
    0x0_4_5_0_0_90_90_90_90_90_1, // 25 one_float: (N) to N; T float; wides
    0x0_4_5_0_0_90_90_90_90_90_2, // 26 two_floats: (N, N) to N; T float; wides
    0x0_4_5_0_0_90_90_90_90_90_3, // 27 three_floats: (N, N, N) to N; T float; wides
    0x0_4_5_0_0_90_90_90_90_90_3, // 28 mixing: (N, N, N) to N; T float; wides
    0x0_4_4_0_0_90_90_91_90_90_3, // 29 mixing: (N, N, E) to N; T float; vectors
    0x0_3_5_0_0_90_90_90_90_90_1, // 30 one_numeric: (N) to N; T numeric; wides
    0x0_3_5_0_0_90_90_90_90_90_2, // 31 two_numerics: (N, N) to N; T numeric; wides
    0x0_3_5_0_0_90_90_90_90_90_3, // 32 three_numerics: (N, N, N) to N; T numeric; wides
    0x0_6_5_0_0_90_90_90_90_90_1, // 33 one_bits: (N) to N; T bits; wides
    0x0_6_5_0_0_90_90_41_41_90_3, // 34 extracting: (N, E of u32, E of u32) to N; T bits; wides
    0x0_6_5_0_0_90_41_41_90_90_4, // 35 inserting: (N, N, E of u32, E of u32) to N; T bits; wides
    0x0_4_5_0_0_91_90_90_90_90_1, // 36 measuring: (N) to E; T float; wides
    0x0_4_5_0_0_91_90_90_90_90_2, // 37 distancing: (N, N) to E; T float; wides
    0x0_3_4_0_0_91_90_90_90_90_2, // 38 dotting: (N, N) to E; T numeric; vectors
    0x0_4_4_0_0_90_90_90_90_90_1, // 39 one_float_vector: (N) to N; T float; vectors
    0x0_4_4_0_0_90_90_90_90_90_2, // 40 two_float_vectors: (N, N) to N; T float; vectors
    0x0_4_4_0_0_90_90_90_90_90_3, // 41 three_float_vectors: (N, N, N) to N; T float; vectors
    0x0_4_4_0_0_90_90_91_90_90_3, // 42 refracting: (N, N, E) to N; T float; vectors
    0x0_4_2_0_0_90_90_90_90_90_2, // 43 crossing: (N, N) to N; T float; width 3
    0x0_4_8_0_0_91_90_90_90_90_1, // 44 square_matrix: (N) to E; T float; squares
    0x0_4_6_0_0_96_90_90_90_90_1, // 45 transposing: (N) to matRxC; T float; matrices
    0x0_7_5_0_0_90_90_90_90_90_1, // 46 one_f32: (N) to N; T only f32; wides
    0x0_4_5_0_1_90_90_90_90_90_1, // 47 frexp_of: (N) to in_frexp N; T float; wides
    0x0_4_5_0_2_90_90_90_90_90_1, // 48 modf_of: (N) to in_modf N; T float; wides
    0x0_7_3_0_0_41_90_90_90_90_1, // 49 packing4_f32: (N) to E of u32; T only f32; width 4
    0x0_8_3_0_0_41_90_90_90_90_1, // 50 packing4_i32: (N) to E of u32; T only i32; width 4
    0x0_9_3_0_0_41_90_90_90_90_1, // 51 packing4_u32: (N) to E of u32; T only u32; width 4
    0x0_7_1_0_0_41_90_90_90_90_1, // 52 packing2_f32: (N) to E of u32; T only f32; width 2
    0x0_7_3_3_0_90_90_90_90_41_1, // 53 unpacking4_f32: (E of u32) to N; T only f32; width 4
    0x0_8_3_3_0_90_90_90_90_41_1, // 54 unpacking4_i32: (E of u32) to N; T only i32; width 4
    0x0_9_3_3_0_90_90_90_90_41_1, // 55 unpacking4_u32: (E of u32) to N; T only u32; width 4
    0x0_7_1_3_0_90_90_90_90_41_1, // 56 unpacking2_f32: (E of u32) to N; T only f32; width 2
    0x0_9_0_0_0_41_90_90_90_90_2, // 57 packed_dot_u32: (N, N) to E of u32; T only u32; scalars
    0x0_9_0_0_0_31_90_90_90_90_2, // 58 packed_dot_i32: (N, N) to E of i32; T only u32; scalars
    0x0_0_5_0_0_01_90_90_90_90_1, // 59 one_bool: (N) to E of bool; T only bool; wides
    0x0_5_5_0_0_90_90_01_90_90_3, // 60 selecting: (N, N, E of bool) to N; T bool ∷ numeric; wides
    0x0_5_4_0_0_90_90_00_90_90_3, // 61 selecting: (N, N, N of bool) to N; T bool ∷ numeric; vectors
    0x0_a_5_0_0_90_90_90_90_90_1, // 62 one_concrete: (N) to N; T concrete; wides
    0x0_0_0_0_0_90_90_90_90_90_1, // 63 voting: (N) to N; T only bool; scalars
    0x0_9_3_3_0_90_90_90_90_01_1, // 64 balloting: (E of bool) to N; T only u32; width 4
    0x0_0_0_0_0_90_90_90_90_90_0, // 65 electing: () to N; T only bool; scalars
    0x6_a_5_0_0_90_90_90_71_90_2, // 66 of_lane: (N, E of I) to N; T concrete, I bits; wides
    0x0_a_5_0_0_90_90_90_41_90_2, // 67 shuffling: (N, E of u32) to N; T concrete; wides
    0x0_4_5_0_0_90_90_90_80_90_2, // 68 scaling: (N, N of exp) to N; T float; wides
];
// What stands past the last.
const NO_FAMILY: u64 = 0xf_f_f_0_0_90_90_90_90_90_0;

// The line of a family.
pub fn family_word(f: u64) -> u64
    ensures { Word f result }
{
    line(&FAMILIES, f as usize, NO_FAMILY)
}

// By size, for each form: the first operand of the shape that it asks, where it asks one. Two hexadecimal digits each.
const STARTS: [u64; 41] = [
    0x00_00_00_00_00_00_00, // 0
    0x00_00_00_07_00_00_07, // 1
    0x00_00_00_0e_00_00_0e, // 2
    0x00_00_00_15_00_00_15, // 3
    0x1c_00_00_07_07_00_1c, // 4
    0x31_00_00_0e_07_00_23, // 5
    0x46_00_00_15_07_00_2a, // 6
    0x23_00_00_07_0e_00_31, // 7
    0x38_00_00_0e_0e_00_38, // 8
    0x4d_00_00_15_0e_00_3f, // 9
    0x2a_00_00_07_15_00_46, // 10
    0x3f_00_00_0e_15_00_4d, // 11
    0x54_00_00_15_15_00_54, // 12
    0x00_00_00_00_00_00_00, // 13
    0x1c_1c_1c_07_07_00_1c, // 14
    0x23_31_1c_07_0e_00_31, // 15
    0x2a_46_1c_07_15_00_46, // 16
    0x31_1c_23_0e_07_00_23, // 17
    0x38_31_23_0e_0e_00_38, // 18
    0x3f_46_23_0e_15_00_4d, // 19
    0x46_1c_2a_15_07_00_2a, // 20
    0x4d_31_2a_15_0e_00_3f, // 21
    0x54_46_2a_15_15_00_54, // 22
    0x1c_23_31_07_07_00_1c, // 23
    0x23_38_31_07_0e_00_31, // 24
    0x2a_4d_31_07_15_00_46, // 25
    0x31_23_38_0e_07_00_23, // 26
    0x38_38_38_0e_0e_00_38, // 27
    0x3f_4d_38_0e_15_00_4d, // 28
    0x46_23_3f_15_07_00_2a, // 29
    0x4d_38_3f_15_0e_00_3f, // 30
    0x54_4d_3f_15_15_00_54, // 31
    0x1c_2a_46_07_07_00_1c, // 32
    0x23_3f_46_07_0e_00_31, // 33
    0x2a_54_46_07_15_00_46, // 34
    0x31_2a_4d_0e_07_00_23, // 35
    0x38_3f_4d_0e_0e_00_38, // 36
    0x3f_54_4d_0e_15_00_4d, // 37
    0x46_2a_54_15_07_00_2a, // 38
    0x4d_3f_54_15_0e_00_3f, // 39
    0x54_54_54_15_15_00_54, // 40
];

// The line of a size.
pub fn starts_at(n: u8) -> u64
    requires { n < 41 }
    ensures { Starts n result }
{
    STARTS[n as usize]
}

// By list of sizes: a bit for each size of it.
const SIZES: [u64; 16] = [
    0x1, // 0 scalars
    0x2, // 1 width 2
    0x4, // 2 width 3
    0x8, // 3 width 4
    0xe, // 4 vectors
    0xf, // 5 wides
    0x1ff0, // 6 matrices
    0x1ff0, // 7 matrices_by_rows
    0x1110, // 8 squares
    0x1ffffffc000, // 9 products
    0, // 10
    0, // 11
    0, // 12
    0, // 13
    0, // 14
    0, // 15
];

// The line of a list of sizes.
pub fn sizes_line(k: u8) -> u64
    ensures { Sizes k result }
{
    line(&SIZES, k as usize, 0)
}

// By set of scalars: a bit for each, in the order of preference (bool, AbstractInt, i32, u32, AbstractFloat, f32, f16).
const SETS: [u64; 16] = [
    0x1, // 0 only bool
    0x76, // 1 signed
    0xe, // 2 integer
    0x7e, // 3 numeric
    0x70, // 4 float
    0x7f, // 5 bool ∷ numeric
    0xc, // 6 bits
    0x20, // 7 only f32
    0x4, // 8 only i32
    0x8, // 9 only u32
    0x6c, // 10 concrete
    0, // 11
    0, // 12
    0, // 13
    0, // 14
    0, // 15
];

// The line of a set.
pub fn set_line(k: u8) -> u64
    ensures { Scalars k result }
{
    line(&SETS, k as usize, 0)
}

// By component, for each scalar: the set of T at which the scalar converts to it. Two hexadecimal digits each.
const REACHED: [u64; 9] = [
    0x00_00_00_00_00_00_7f, // 0 bool
    0x00_00_00_00_00_7f_00, // 1 AbstractInt
    0x00_00_00_00_7f_7f_00, // 2 AbstractFloat
    0x00_00_00_7f_00_7f_00, // 3 i32
    0x00_00_7f_00_00_7f_00, // 4 u32
    0x00_7f_00_00_7f_7f_00, // 5 f32
    0x7f_00_00_00_7f_7f_00, // 6 f16
    0x7f_7f_7f_7f_7f_7f_7f, // 7 I, at every T
    0x00_00_00_6d_00_7f_00, // 8 AbstractInt at an abstract T, else i32
];

// The line of a component other than T.
fn reached_at(of: u8) -> u64
    requires { of < 9 }
    ensures { Reached of result }
{
    REACHED[of as usize]
}

// The set of T at which a scalar converts to a component other than T.
pub fn reached(of: u8, s: u8) -> u64
    requires { (of < 9) × (s < 7) }
    ensures { (t : ℕ) → t < 7 → has result t ≡ slot_t of s t }
{
    (reached_at(of) >> (8 * s)) % 256
}

// No place in a row.
const NO_PLACE: u64 = 15;

// A row, by its number, with its line.
#[derive(Clone, Copy)]
pub struct Row {
    pub no: usize,
    pub line: u64,
    ghost read: { RowLine no line },
}

impl Row {
    pub fn at(no: usize) -> Row
        ensures { result.no ≡ no }
    {
        Row {
            no,
            line: row_line(no),
        }
    }

    // How many operands its overloads take.
    pub fn operand_count(self) -> usize
        ensures { result ≡ operand_count (row_at self.no) }
    {
        ((self.line >> 48) % 16) as usize
    }

    // Where its families begin.
    pub fn start(self) -> u64
        ensures { result ≡ entry 8 self.line 5 }
    {
        (self.line >> 40) % 256
    }

    // Up to which place its families are tried in turn, 0 where only the first is.
    pub fn stop(self) -> u64
        ensures { result ≡ stop_of (row_at self.no).families }
    {
        (self.line >> 36) % 16
    }

    // The place of its first family for the forms of the first and last operand.
    pub fn place(self, forms: u8) -> Option<u64>
        requires { forms < 9 }
        ensures value { result ≡ placed (place_of forms (row_at self.no).families 0) }
        ensures small { MatchOption result ⊤ (λ k. k < 16) }
    {
        let k = (self.line >> (4 * forms)) % 16;
        if k == NO_PLACE { None } else { Some(k) }
    }
}

// A family, by its number, with its line.
#[derive(Clone, Copy)]
pub struct Family {
    pub no: u64,
    pub line: u64,
    ghost read: { Word no line },
}

impl Family {
    pub fn at(no: u64) -> Family
        ensures { result.no ≡ no }
    {
        Family {
            no,
            line: family_word(no),
        }
    }

    // A digit of it.
    pub fn digit(self, i: usize) -> u8
        requires { i < 13 }
        ensures { result ≡ digit_of self.no i }
    {
        ((self.line >> (4 * i)) % 16) as u8
    }

    // The numbers of its list of sizes, of its set of T and of its second set.
    pub fn sizes(self) -> u8
        ensures { (sizes_of result ≡ (family_of self.no).sizes) × (result < 16) }
    {
        ((self.line >> 52) % 16) as u8
    }

    pub fn set(self) -> u8
        ensures { (set_of result ≡ (family_of self.no).set) × (result < 16) }
    {
        ((self.line >> 56) % 16) as u8
    }

    pub fn second(self) -> u8
        ensures { (set_of result ≡ (family_of self.no).second) × (result < 16) }
    {
        ((self.line >> 60) % 16) as u8
    }
}

// A size, by its number, with its line.
#[derive(Clone, Copy)]
pub struct Size {
    pub no: u8,
    pub starts: u64,
    ghost small: { no < 41 },
    ghost read: { Starts no starts },
}

impl Size {
    pub fn at(no: u8) -> Size
        requires { no < 41 }
        ensures { result.no ≡ no }
    {
        Size {
            no,
            starts: starts_at(no),
        }
    }

    // The first operand of the shape that a form asks at it.
    pub fn start(self, form: u8) -> u8
        requires { (form < 7) × (asked_of form self.no < 13) }
        ensures { result ≡ 7 * asked_of form self.no }
    {
        ((self.starts >> (8 * form)) % 256) as u8
    }
}
