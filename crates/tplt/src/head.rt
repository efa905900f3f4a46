// The heads of template types, by their names.
ghost use Rattle.std.specs.Prelude.{◌≡◌, ◌≤◌, length};
ghost use Rattle.tplt.specs.Heads.{head_of, heads};
ghost use Rattle.tplt.specs.inner.Steps.{longest, key_of, head_at};

// A head: a vector of a width, a matrix of columns and rows, an atomic or an array.
#[derive(Clone, Copy)]
pub enum Head {
    Vector(u32),
    Matrix(u32, u32),
    Atomic,
    Array,
}

// The names of the heads as numbers: their bytes from the last to the first, after a 1.
const ARRAY: u64 = 0x1_79_61_72_72_61;

const ATOMIC: u64 = 0x1_63_69_6d_6f_74_61;

const VEC2: u64 = 0x1_32_63_65_76;

const VEC3: u64 = 0x1_33_63_65_76;

const VEC4: u64 = 0x1_34_63_65_76;

const MAT2X2: u64 = 0x1_32_78_32_74_61_6d;

const MAT2X3: u64 = 0x1_33_78_32_74_61_6d;

const MAT2X4: u64 = 0x1_34_78_32_74_61_6d;

const MAT3X2: u64 = 0x1_32_78_33_74_61_6d;

const MAT3X3: u64 = 0x1_33_78_33_74_61_6d;

const MAT3X4: u64 = 0x1_34_78_33_74_61_6d;

const MAT4X2: u64 = 0x1_32_78_34_74_61_6d;

const MAT4X3: u64 = 0x1_33_78_34_74_61_6d;

const MAT4X4: u64 = 0x1_34_78_34_74_61_6d;

// The longest name of a head.
const LONGEST: usize = 6;

// A name as one number, as above.
fn key_of(name: &[u8]) -> u64
    requires { length name.now ≤ longest }
    ensures { result ≡ key_of name.now }
{
    let mut key: u64 = 1;
    let mut left = name;
    while let [front @ .., b] = left {
        key = key * 256 + cast::wide::<u64>(*b);
        left = front;
    }
    key
}

fn head_at(key: u64) -> Option<Head>
    ensures { result ≡ head_at heads key }
{
    let head = match key {
        ARRAY => Head::Array,
        ATOMIC => Head::Atomic,
        VEC2 => Head::Vector(2),
        VEC3 => Head::Vector(3),
        VEC4 => Head::Vector(4),
        MAT2X2 => Head::Matrix(2, 2),
        MAT2X3 => Head::Matrix(2, 3),
        MAT2X4 => Head::Matrix(2, 4),
        MAT3X2 => Head::Matrix(3, 2),
        MAT3X3 => Head::Matrix(3, 3),
        MAT3X4 => Head::Matrix(3, 4),
        MAT4X2 => Head::Matrix(4, 2),
        MAT4X3 => Head::Matrix(4, 3),
        MAT4X4 => Head::Matrix(4, 4),
        _ => return None,
    };
    Some(head)
}

// The head of a name: vec2 to vec4, mat2x2 to mat4x4, atomic, array.
pub fn head_of(name: &[u8]) -> Option<Head>
    ensures { result ≡ head_of name.now }
{
    if LONGEST < name.len() {
        return None;
    }
    head_at(key_of(name))
}
