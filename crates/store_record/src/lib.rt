// The records of a store: one record read, and the survey of all records.
#![tactic(auto)]

ghost use Rattle.std.specs.Prelude.{◌≡◌, ◌&&◌, eqb, ◌≤◌, length};
ghost use Rattle.laws.specs.Order.{same};
ghost use Rattle.reference_digests.specs.Algorithms.{byte_of};
ghost use Rattle.reference.specs.References.{image_id};
ghost use Rattle.store_record.specs.Ids.{has_id};
ghost use Rattle.store_record.specs.Reading.{between, held_in, RecordIn, Reads, ReadsBody, Surveys, no_record};

use reference_digests::algorithm::Algorithm;
use reference_digests::digest;
use store_varint::Number;

// The most images that a store may hold.
pub const MOST_IMAGES: usize = 64;

// The positions in a store of one record's parts: the signer's digest, the manifest's, the manifest itself, and the end.
#[derive(Clone, Copy)]
pub struct Record {
    pub algorithm: Algorithm,
    pub signer: usize,
    pub manifest: usize,
    pub text: usize,
    pub end: usize,
}

impl Record {
    // The record's ID has that algorithm and that signer.
    pub fn is_signed_by(self, s: &[u8], a: Algorithm, signer: &[u8]) -> bool
        requires { RecordIn s.now self }
        ensures { result ≡ (eqb (byte_of a) (byte_of self.algorithm)
            && same signer.now (between s.now self.signer self.manifest)) }
    {
        let own = self.algorithm;
        if a.byte() != own.byte() {
            return false;
        }
        let start = self.signer;
        let end = self.manifest;
        digest::equal(signer, &s[start..end])
    }

    // The record's ID is that one.
    pub fn has_id(self, s: &[u8], a: Algorithm, signer: &[u8], manifest: &[u8]) -> bool
        requires { RecordIn s.now self }
        ensures { result ≡ has_id (image_id a signer.now manifest.now) (held_in s.now self) }
    {
        if !self.is_signed_by(s, a, signer) {
            return false;
        }
        let start = self.manifest;
        let end = self.text;
        digest::equal(manifest, &s[start..end])
    }
}

// The records of a store: at most 64, of which the first `count` places of the array hold the positions.
#[derive(Clone, Copy)]
pub struct Survey {
    pub count: usize,
    pub records: [Record; MOST_IMAGES],
}

// The record that begins at position i.
pub fn read(s: &[u8], i: usize) -> Option<Record>
    ensures { Reads s.now i result }
{
    let Number { value, next } = store_varint::read(s, i, s.len())?;
    if s.len() - next < value {
        return None;
    }
    body(s, next, next + value)
}

// The record whose algorithm's byte stands at position i, and which ends at `end`.
fn body(s: &[u8], i: usize, end: usize) -> Option<Record>
    requires { (i ≤ end) × (end ≤ length s.now) }
    ensures { ReadsBody s.now i end result }
{
    if i == end {
        return None;
    }
    let algorithm = Algorithm::from_byte(s[i])?;
    let n = algorithm.digest_bytes();
    let signer = i + 1;
    if end - signer < 2 * n {
        return None;
    }
    let manifest = signer + n;
    let text = manifest + n;
    Some(Record {
        algorithm,
        signer,
        manifest,
        text,
        end,
    })
}

// A record that stands nowhere.
fn no_record() -> Record
    ensures { result ≡ no_record }
{
    Record {
        algorithm: Algorithm::Sha224,
        signer: 0,
        manifest: 0,
        text: 0,
        end: 0,
    }
}

impl Survey {
    // The records of the bytes s, if at most 64 fill them exactly.
    pub fn of(s: &[u8]) -> Option<Survey>
        ensures { Surveys s.now result }
    {
        let mut records = [no_record(); MOST_IMAGES];
        let mut count = 0;
        let mut i = 0;
        // no `for` counts `i`: it goes on where the record ends
        while i < s.len() {
            if count == MOST_IMAGES {
                return None;
            }
            let r = read(s, i)?;
            records[count] = r;
            count += 1;
            i = r.end;
        }
        Some(Survey { count, records })
    }
}
