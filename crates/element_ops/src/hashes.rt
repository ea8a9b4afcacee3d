//! The hashes of an element.

ghost use Rattle.std.specs.Prelude.{◌≡◌};
ghost use Rattle.ripemd160.specs.Ripemd160;
ghost use Rattle.sha1.specs.Sha1.{sha1};
ghost use Rattle.sha2.specs.Sha256.{sha256};

use cash_base::Element;
use cash_base::element::copy_of;
use ripemd160::ripemd160;
use sha1::Sha1;
use sha2::{Digest, Sha256};

/// The RIPEMD-160, 20 bytes.
pub fn ripemd160_element(a: &[u8]) -> Element
    ensures { result.items ≡ Ripemd160.ripemd160 a.now }
{
    copy_of(&ripemd160(a))
}

/// The SHA-1, 20 bytes.
pub fn sha1_element(a: &[u8]) -> Element
    ensures { result.items ≡ sha1 a.now }
{
    copy_of(&Sha1::digest(a))
}

/// The SHA-256, 32 bytes.
pub fn sha256_element(a: &[u8]) -> Element
    ensures { result.items ≡ sha256 a.now }
{
    copy_of(&Sha256::digest(a))
}

/// The RIPEMD-160 of the SHA-256.
pub fn hash160(a: &[u8]) -> Element
    ensures { result.items ≡ Ripemd160.ripemd160 (sha256 a.now) }
{
    copy_of(&ripemd160(&Sha256::digest(a)))
}

/// The SHA-256 of the SHA-256.
pub fn hash256(a: &[u8]) -> Element
    ensures { result.items ≡ sha256 (sha256 a.now) }
{
    copy_of(&Sha256::digest(Sha256::digest(a)))
}
