// What a file holds, below a line with its checksum: 64 hexadecimal digits, the SHA-256 of the bytes that follow.
#![tactic(auto)]

ghost use Rattle.std.specs.Prelude.{◌≡◌, IfOk, Ok, Err, MatchResult};
ghost use Rattle.seal.specs.Seals.{checksum_line, sealed, unsealed};

use sha2::{Digest, Sha256};
use std::alloc::{AllocError, Global};
use thiserror::Error;

// How many bytes the line has, with its end.
pub const HEAD: usize = 65;

// What is wrong with a file: said behind its name.
#[derive(Clone, Copy, PartialEq, Eq, Debug, Error)]
pub enum SealError {
    // It begins with no line of just so many bytes.
    #[error("has no checksum; if it is an older station's, use an empty folder")]
    Missing,
    // The checksum is one of other bytes.
    #[error("is damaged: its checksum does not fit")]
    Mismatch,
}

// The line that belongs above these bytes.
fn checksum_line(bytes: &[u8]) -> [u8; HEAD]
    ensures { result ≡ checksum_line bytes.now }
{
    let mut line = [b'\n'; HEAD];
    let _ = hex::encode_to_slice(Sha256::digest(bytes), &mut line[..HEAD - 1]);
    line
}

// The bytes below their checksum. `unseal` finds just them there.
pub fn seal(heap: Global, bytes: &[u8]) -> Result<Vec<u8>, AllocError>
    ensures written { IfOk result (λ v. v.items ≡ sealed bytes.now) }
    ensures back { IfOk result (λ v. unsealed v.items ≡ Ok bytes.now) }
{
    let line = checksum_line(bytes);
    let mut file = Vec::from_slice(heap, &line)?;
    file.extend_from_slice(bytes)?;
    Ok(file)
}

// The bytes that stand below their checksum.
pub fn unseal(file: &[u8]) -> Result<&[u8], SealError>
    ensures { MatchResult result (λ bytes. unsealed file.now ≡ Ok bytes.now) (λ e. unsealed file.now ≡ Err e) }
{
    let Some((line, bytes)) = file.split_at_checked(HEAD) else {
        return Err(SealError::Missing);
    };
    if line[HEAD - 1] != b'\n' {
        return Err(SealError::Missing);
    }
    if line != checksum_line(bytes).as_slice() {
        return Err(SealError::Mismatch);
    }
    Ok(bytes)
}
