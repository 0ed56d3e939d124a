// The epoch of a service: a number that tells its configuration and its history from others.
ghost use Rattle.std.specs.Prelude.{◌≡◌, ◌/◌, ◌^◌, ℕ, List, [], fold};
ghost use Rattle.rg_metrics.specs.Epoch.{cut_bits, fnv_step, hash_of};

/// The hash of no bytes, FNV-1a in 64 bits (draft-eastlake-fnv).
const FIRST_HASH: u64 = 0xcbf2_9ce4_8422_2325;

/// What each byte's round multiplies by.
const PRIME: u64 = 0x0100_0000_01b3;

/// As many bits of a hash are cut off, so that programs which take JSON's numbers for floats take this one whole.
const CUT_BITS: u32 = 11;

/// The hash, with these bytes more.
fn hashed(hash: u64, bytes: &[u8]) -> u64
    ensures { result ≡ fold fnv_step hash bytes.now }
{
    let mut hash = hash;
    for byte in bytes {
        hash = (hash ^ u64::from(*byte)).wrapping_mul(PRIME);
    }
    hash
}

/// Which configuration a service stands on, and which record it has first.
#[derive(Clone, Copy, Debug, PartialEq, Eq)]
pub struct Epoch {
    /// The hash of both.
    pub hash: u64,
}

impl Epoch {
    /// With this line as its configuration, and no record yet.
    pub fn of_line(line: &[u8]) -> Epoch
        ensures { result.hash ≡ hash_of line.now [] }
    {
        Epoch {
            hash: hashed(hashed(FIRST_HASH, line), &[0]),
        }
    }

    /// With this as its first record, where it had none.
    pub fn with_record(self, first: &[u8]) -> Epoch
        ensures { (line : List ℕ) → self.hash ≡ hash_of line []
            → result.hash ≡ hash_of line first.now }
    {
        Epoch {
            hash: hashed(self.hash, first),
        }
    }

    /// Its number, below 2^53.
    pub fn number(self) -> u64
        ensures { result ≡ self.hash / 2 ^ cut_bits }
    {
        self.hash >> CUT_BITS
    }
}
