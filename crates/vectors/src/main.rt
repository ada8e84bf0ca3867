// Published vectors of the building blocks, values of the stock program's tests, and values under keys, nonces and a number that all
// differ (`second/vectors/distinct.txt`), a line each: what it prints is compared with those values.
// What a call answers is dropped: a refusal shows in the bytes that it leaves.
#![tactic(auto)]

mod ctrmac;
mod labels;

use content::chunk::{open_chunk, write_chunk};
use content::header::{open_header, write_header};
use file_read::{open_file, read_range};
use file_reader::twice::read_twice;
use file_write::write_file;
use key_wrap::{unwrap_key, wrap_key};
use names::opener::{open_long_name, open_name};
use names::path::dir_path;
use names::writer::write_name;
use primitives::authenticated::{primitives_gcm_open, primitives_gcm_seal};
use primitives::cipher::{primitives_aes256, primitives_aes256_decrypt};
use primitives::counter::primitives_ctr128;
use primitives::deterministic::{primitives_cmac256, primitives_siv_open, primitives_siv_seal};
use primitives::hash::{primitives_hmac_sha256, primitives_sha1, primitives_sha256};
use primitives::text::{primitives_base32, primitives_base64url_encode, primitives_proper_text};
use std::io;
use std::io::Write;
use vault::record::{Combo, Vault, make_vault};

// The vault of two master keys of 32 bytes, with the stock program's threshold.
fn vault_of(enc: &[u8], mac: &[u8], combo: Combo) -> Vault {
    make_vault(enc, mac, combo, 220).vault
}

// The bytes in hex, on a line.
fn print(rt: &impl Print, bytes: &[u8]) -> io::Result<()> {
    for byte in bytes {
        print!(rt; "{byte:02x}")?;
    }
    println!(rt)
}

// The bytes as they are, on a line.
fn line(rt: &impl Print, bytes: &[u8]) -> io::Result<()> {
    let mut out = io::writer(rt);
    out.write_all(bytes)?;
    out.write_all(b"\n")
}

// FIPS 197, the example cipher for a key of 256 bits, and its inverse.
fn aes256(rt: &impl Print) -> io::Result<()> {
    let key =
        b"\x00\x01\x02\x03\x04\x05\x06\x07\x08\x09\x0a\x0b\x0c\x0d\x0e\x0f\x10\x11\x12\x13\x14\x15\x16\x17\x18\x19\x1a\x1b\x1c\x1d\x1e\x1f";
    let block = b"\x00\x11\x22\x33\x44\x55\x66\x77\x88\x99\xaa\xbb\xcc\xdd\xee\xff";
    let mut out = [0u8; 16];
    primitives_aes256(key, block, &mut out);
    print(rt, &out)?;
    let mut back = [0u8; 16];
    primitives_aes256_decrypt(key, &out, &mut back);
    print(rt, &back)?;
    Ok(())
}

// The test case 16 of the GCM submission to NIST: the sealed text, and what it opens to.
fn gcm(rt: &impl Print) -> io::Result<()> {
    let key =
        b"\xfe\xff\xe9\x92\x86\x65\x73\x1c\x6d\x6a\x8f\x94\x67\x30\x83\x08\xfe\xff\xe9\x92\x86\x65\x73\x1c\x6d\x6a\x8f\x94\x67\x30\x83\x08";
    let nonce = b"\xca\xfe\xba\xbe\xfa\xce\xdb\xad\xde\xca\xf8\x88";
    let aad = b"\xfe\xed\xfa\xce\xde\xad\xbe\xef\xfe\xed\xfa\xce\xde\xad\xbe\xef\xab\xad\xda\xd2";
    let cleartext =
        b"\xd9\x31\x32\x25\xf8\x84\x06\xe5\xa5\x59\x09\xc5\xaf\xf5\x26\x9a\x86\xa7\xa9\x53\x15\x34\xf7\xda\x2e\x4c\x30\x3d\x8a\x31\x8a\x72\x1c\x3c\x0c\x95\x95\x68\x09\x53\x2f\xcf\x0e\x24\x49\xa6\xb5\x25\xb1\x6a\xed\xf5\xaa\x0d\xe6\x57\xba\x63\x7b\x39";
    let mut sealed = [0u8; 76];
    primitives_gcm_seal(key, nonce, aad, cleartext, &mut sealed);
    print(rt, &sealed)?;
    let mut opened = [0u8; 60];
    primitives_gcm_open(key, nonce, aad, &sealed, &mut opened);
    print(rt, &opened)?;
    Ok(())
}

// SP 800-38A, F.5.5.
fn ctr128(rt: &impl Print) -> io::Result<()> {
    let key =
        b"\x60\x3d\xeb\x10\x15\xca\x71\xbe\x2b\x73\xae\xf0\x85\x7d\x77\x81\x1f\x35\x2c\x07\x3b\x61\x08\xd7\x2d\x98\x10\xa3\x09\x14\xdf\xf4";
    let first_counter = b"\xf0\xf1\xf2\xf3\xf4\xf5\xf6\xf7\xf8\xf9\xfa\xfb\xfc\xfd\xfe\xff";
    let text =
        b"\x6b\xc1\xbe\xe2\x2e\x40\x9f\x96\xe9\x3d\x7e\x11\x73\x93\x17\x2a\xae\x2d\x8a\x57\x1e\x03\xac\x9c\x9e\xb7\x6f\xac\x45\xaf\x8e\x51\x30\xc8\x1c\x46\xa3\x5c\xe4\x11\xe5\xfb\xc1\x19\x1a\x0a\x52\xef\xf6\x9f\x24\x45\xdf\x4f\x9b\x17\xad\x2b\x41\x7b\xe6\x6c\x37\x10";
    let mut out = [0u8; 64];
    primitives_ctr128(key, first_counter, text, &mut out);
    print(rt, &out)?;
    Ok(())
}

// SP 800-38B, the example of 40 bytes for a key of 256 bits.
fn cmac(rt: &impl Print) -> io::Result<()> {
    let key =
        b"\x60\x3d\xeb\x10\x15\xca\x71\xbe\x2b\x73\xae\xf0\x85\x7d\x77\x81\x1f\x35\x2c\x07\x3b\x61\x08\xd7\x2d\x98\x10\xa3\x09\x14\xdf\xf4";
    let message =
        b"\x6b\xc1\xbe\xe2\x2e\x40\x9f\x96\xe9\x3d\x7e\x11\x73\x93\x17\x2a\xae\x2d\x8a\x57\x1e\x03\xac\x9c\x9e\xb7\x6f\xac\x45\xaf\x8e\x51\x30\xc8\x1c\x46\xa3\x5c\xe4\x11";
    let mut out = [0u8; 16];
    primitives_cmac256(key, message, &mut out);
    print(rt, &out)?;
    Ok(())
}

// A vector of AES-256-SIV with one string of associated data: the sealed text, and what it opens to.
fn siv(rt: &impl Print) -> io::Result<()> {
    let mac_key =
        b"\xff\xfe\xfd\xfc\xfb\xfa\xf9\xf8\xf7\xf6\xf5\xf4\xf3\xf2\xf1\xf0\xf0\xf1\xf2\xf3\xf4\xf5\xf6\xf7\xf8\xf9\xfa\xfb\xfc\xfd\xfe\xff";
    let enc_key =
        b"\xf0\xf1\xf2\xf3\xf4\xf5\xf6\xf7\xf8\xf9\xfa\xfb\xfc\xfd\xfe\xff\xff\xfe\xfd\xfc\xfb\xfa\xf9\xf8\xf7\xf6\xf5\xf4\xf3\xf2\xf1\xf0";
    let ad =
        b"\x10\x11\x12\x13\x14\x15\x16\x17\x18\x19\x1a\x1b\x1c\x1d\x1e\x1f\x20\x21\x22\x23\x24\x25\x26\x27";
    let cleartext = b"\x11\x22\x33\x44\x55\x66\x77\x88\x99\xaa\xbb\xcc\xdd\xee";
    let mut sealed = [0u8; 30];
    primitives_siv_seal(mac_key, enc_key, 1, ad, cleartext, &mut sealed);
    print(rt, &sealed)?;
    let mut opened = [0u8; 14];
    primitives_siv_open(mac_key, enc_key, 1, ad, &sealed, &mut opened);
    print(rt, &opened)?;
    Ok(())
}

// FIPS 180-4's example: the digest of "abc".
// Kept: a vector each, in turn: this and `sha256` are lines of a test program.
fn sha1(rt: &impl Print) -> io::Result<()> {
    let mut out = [0u8; 20];
    primitives_sha1(b"abc", &mut out);
    print(rt, &out)?;
    Ok(())
}

// FIPS 180-4, the example "abc".
fn sha256(rt: &impl Print) -> io::Result<()> {
    let mut out = [0u8; 32];
    primitives_sha256(b"abc", &mut out);
    print(rt, &out)?;
    Ok(())
}

// RFC 4231, test case 2.
fn hmac(rt: &impl Print) -> io::Result<()> {
    let mut out = [0u8; 32];
    primitives_hmac_sha256(b"Jefe", b"what do ya want for nothing?", &mut out);
    print(rt, &out)?;
    Ok(())
}

// RFC 4648's example "fooba": four times in base32, and in base64url with padding.
fn text(rt: &impl Print) -> io::Result<()> {
    let mut base32 = [0u8; 32];
    primitives_base32(b"foobafoobafoobafooba", &mut base32);
    line(rt, &base32)?;
    let mut base64url = [0u8; 8];
    primitives_base64url_encode(b"fooba", 1, &mut base64url);
    line(rt, &base64url)?;
    Ok(())
}

// A wrapped key, and what it unwraps to.
fn wrapped(rt: &impl Print, kek: &[u8], key: &[u8]) -> io::Result<()> {
    let mut wrapped = [0u8; 40];
    let _ = wrap_key(kek, key, &mut wrapped);
    print(rt, &wrapped)?;
    let mut unwrapped = [0u8; 32];
    let _ = unwrap_key(kek, &wrapped, &mut unwrapped);
    print(rt, &unwrapped)?;
    Ok(())
}

// RFC 3394, 4.6: a key of 256 bits under another.
fn key_wrap(rt: &impl Print) -> io::Result<()> {
    let kek =
        b"\x00\x01\x02\x03\x04\x05\x06\x07\x08\x09\x0a\x0b\x0c\x0d\x0e\x0f\x10\x11\x12\x13\x14\x15\x16\x17\x18\x19\x1a\x1b\x1c\x1d\x1e\x1f";
    let key =
        b"\x00\x11\x22\x33\x44\x55\x66\x77\x88\x99\xaa\xbb\xcc\xdd\xee\xff\x00\x01\x02\x03\x04\x05\x06\x07\x08\x09\x0a\x0b\x0c\x0d\x0e\x0f";
    wrapped(rt, kek, key)?;
    Ok(())
}

// Whether a text is proper, as a digit.
fn told(rt: &impl Print, text: &[u8]) -> io::Result<()> {
    print!(rt; "{}", primitives_proper_text(text))
}

// The examples of RFC 3629: four texts, and three that are not well formed.
fn utf8(rt: &impl Print) -> io::Result<()> {
    told(rt, b"\x41\xe2\x89\xa2\xce\x91\x2e")?;
    told(rt, b"\xed\x95\x9c\xea\xb5\xad\xec\x96\xb4")?;
    told(rt, b"\xe6\x97\xa5\xe6\x9c\xac\xe8\xaa\x9e")?;
    told(rt, b"\xef\xbb\xbf\xf0\xa3\x8e\xb4")?;
    told(rt, b"\xc0\x80")?;
    told(rt, b"\xed\xa1\x8c\xed\xbe\xb4")?;
    told(rt, b"\x2f\xc0\xae\x2e\x2f")?;
    println!(rt)
}

// The stock program's header of SIV_GCM, under keys and a nonce of zeros.
fn stock_header(rt: &impl Print) -> io::Result<()> {
    let zeros = [0u8; 32];
    let nonce = [0u8; 12];
    let mut header = [0u8; 68];
    let v = vault_of(&zeros, &zeros, Combo::SivGcm);
    let _ = write_header(v, &nonce, &zeros, &mut header);
    print(rt, &header)?;
    Ok(())
}

// Its chunk.
fn stock_chunk(rt: &impl Print) -> io::Result<()> {
    let zeros = [0u8; 32];
    let nonce = [0u8; 12];
    let mut chunk = [0u8; 39];
    let v = vault_of(&zeros, &zeros, Combo::SivGcm);
    let _ = write_chunk(v, &zeros, &nonce, 0, &nonce, b"hello world", &mut chunk);
    print(rt, &chunk)?;
    Ok(())
}

// The file of that header and that chunk, what it opens to, its last five bytes, and these and its first five through one reader.
fn stock_file(rt: &impl Print) -> io::Result<()> {
    let zeros = [0u8; 32];
    let nonce = [0u8; 12];
    let text = b"hello world";
    let mut file = [0u8; 107];
    let v = vault_of(&zeros, &zeros, Combo::SivGcm);
    let _ = write_file(v, &nonce, &zeros, &nonce, text, &mut file);
    print(rt, &file)?;
    let mut cleartext = [0u8; 11];
    let _ = open_file(v, &file, &mut cleartext);
    print(rt, &cleartext)?;
    let mut part = [0u8; 5];
    let _ = read_range(v, &file, 6, 5, &mut part);
    print(rt, &part)?;
    let mut last = [0u8; 5];
    let mut first = [0u8; 5];
    read_twice(v, &file, 6, 5, &mut last, 0, 5, &mut first);
    print(rt, &last)?;
    print(rt, &first)?;
    Ok(())
}

// The stock program's path of the root directory.
fn stock_path(rt: &impl Print) -> io::Result<()> {
    let enc = [0x55u8; 32];
    let mac = [0x77u8; 32];
    let mut out = [0u8; 36];
    let _ = dir_path(vault_of(&enc, &mac, Combo::SivGcm), b"", &mut out);
    line(rt, &out)?;
    Ok(())
}

// The stock program's master key, 32 zeros, under the key-encryption key of its tests.
fn stock_master_key(rt: &impl Print) -> io::Result<()> {
    let kek =
        b"\x8c\xf4\xa0\x4e\xc8\x45\xf4\x28\xb2\xf9\xf9\xe1\xd9\xdf\x08\xd2\x62\x11\xd9\xaf\xe2\xf5\x5f\xde\xdf\xcb\xb5\xe7\x5a\xef\x34\xf9";
    let key = [0u8; 32];
    wrapped(rt, kek, &key)?;
    Ok(())
}

// The content key and the reserved bytes that a header opens to.
fn opened_header(rt: &impl Print, v: Vault, header: &[u8]) -> io::Result<()> {
    let mut key = [0u8; 32];
    let reserved = open_header(v, header, &mut key).unwrap_or([0; 8]);
    print(rt, &key)?;
    print(rt, &reserved)?;
    Ok(())
}

// A header, and what it opens to; and what the same header with other reserved bytes does.
fn header(rt: &impl Print, v: Vault, nonce: &[u8], content_key: &[u8]) -> io::Result<()> {
    let mut header = [0u8; 68];
    let _ = write_header(v, nonce, content_key, &mut header);
    print(rt, &header)?;
    opened_header(rt, v, &header)?;
    let other =
        b"\xa0\xa1\xa2\xa3\xa4\xa5\xa6\xa7\xa8\xa9\xaa\xab\x67\x9a\xff\xa9\xc0\x4d\x85\x37\x22\x24\xc5\x90\x43\x3f\x86\x99\x38\xe5\x13\x5b\xde\xfa\x0c\x23\xcc\x5f\x74\xd5\x2b\xfe\x23\x56\x8a\x2f\x1d\xa4\xf3\x7f\x0d\x62\x6f\x1b\xad\x30\xe9\x4f\x48\x69\x5a\xdd\x45\x79\x78\x99\x94\xd4";
    opened_header(rt, v, other)?;
    Ok(())
}

// A chunk whose number has eight different bytes, and what it opens to.
fn chunk(rt: &impl Print, v: Vault, content_key: &[u8], header_nonce: &[u8]) -> io::Result<()> {
    let number = 0x0102030405060708;
    let nonce = b"\xb0\xb1\xb2\xb3\xb4\xb5\xb6\xb7\xb8\xb9\xba\xbb";
    let text = b"hello world";
    let mut chunk = [0u8; 39];
    let _ = write_chunk(
        v,
        content_key,
        header_nonce,
        number,
        nonce,
        text,
        &mut chunk,
    );
    print(rt, &chunk)?;
    let mut cleartext = [0u8; 11];
    let _ = open_chunk(v, content_key, header_nonce, number, &chunk, &mut cleartext);
    print(rt, &cleartext)?;
    Ok(())
}

// The path of a directory.
fn path(rt: &impl Print, v: Vault, id: &[u8]) -> io::Result<()> {
    let mut out = [0u8; 36];
    let _ = dir_path(v, id, &mut out);
    line(rt, &out)?;
    Ok(())
}

// A name in the root and in a directory, and what the second opens to.
fn name(rt: &impl Print, v: Vault, id: &[u8]) -> io::Result<()> {
    let mut stored = [0u8; 28];
    let mut full = [0u8; 1];
    let _ = write_name(v, b"", b"a", &mut stored, &mut full);
    line(rt, &stored)?;
    let _ = write_name(v, id, b"a", &mut stored, &mut full);
    line(rt, &stored)?;
    let mut name = [0u8; 1];
    let _ = open_name(v, id, &stored, &mut name);
    line(rt, &name)?;
    Ok(())
}

// Fills the slice with the alphabet, again and again.
fn alphabet(out: &mut [u8]) {
    for (i, byte) in out.iter_mut().enumerate() {
        *byte = b'a' + (i % 26) as u8;
    }
}

// A name that is shortened: its hash name, its full name, and what the two open to.
fn long_name(
    rt: &impl Print,
    v: Vault,
    id: &[u8],
    name: &[u8],
    full: &mut [u8],
    opened: &mut [u8],
) -> io::Result<()> {
    let mut stored = [0u8; 32];
    let _ = write_name(v, id, name, &mut stored, full);
    line(rt, &stored)?;
    line(rt, full)?;
    let _ = open_long_name(v, id, &stored, full, opened);
    line(rt, opened)?;
    Ok(())
}

// A name of 156 bytes, and one of 1,020, the longest.
fn long_names(rt: &impl Print, v: Vault, id: &[u8]) -> io::Result<()> {
    let mut name = [0u8; 156];
    alphabet(&mut name);
    let mut full = [0u8; 236];
    let mut opened = [0u8; 156];
    long_name(rt, v, id, &name, &mut full, &mut opened)?;
    let mut longest = [0u8; 1020];
    alphabet(&mut longest);
    let mut longest_full = [0u8; 1388];
    let mut longest_opened = [0u8; 1020];
    long_name(rt, v, id, &longest, &mut longest_full, &mut longest_opened)?;
    Ok(())
}

// The values under inputs that all differ.
fn distinct(rt: &impl Print) -> io::Result<()> {
    let enc =
        b"\x00\x01\x02\x03\x04\x05\x06\x07\x08\x09\x0a\x0b\x0c\x0d\x0e\x0f\x10\x11\x12\x13\x14\x15\x16\x17\x18\x19\x1a\x1b\x1c\x1d\x1e\x1f";
    let mac =
        b"\x20\x21\x22\x23\x24\x25\x26\x27\x28\x29\x2a\x2b\x2c\x2d\x2e\x2f\x30\x31\x32\x33\x34\x35\x36\x37\x38\x39\x3a\x3b\x3c\x3d\x3e\x3f";
    let content_key =
        b"\x40\x41\x42\x43\x44\x45\x46\x47\x48\x49\x4a\x4b\x4c\x4d\x4e\x4f\x50\x51\x52\x53\x54\x55\x56\x57\x58\x59\x5a\x5b\x5c\x5d\x5e\x5f";
    let header_nonce = b"\xa0\xa1\xa2\xa3\xa4\xa5\xa6\xa7\xa8\xa9\xaa\xab";
    let id = b"e9250eb8-078d-4fc0-8835-be92a313360c";
    let v = vault_of(enc, mac, Combo::SivGcm);
    header(rt, v, header_nonce, content_key)?;
    chunk(rt, v, content_key, header_nonce)?;
    path(rt, v, id)?;
    name(rt, v, id)?;
    long_names(rt, v, id)?;
    wrapped(rt, enc, content_key)?;
    ctrmac::distinct(rt, vault_of(enc, mac, Combo::SivCtrmac), content_key)?;
    labels::distinct(rt)?;
    Ok(())
}

fn main(rt: HostRuntime) -> io::Result<()> {
    aes256(&rt)?;
    gcm(&rt)?;
    ctr128(&rt)?;
    cmac(&rt)?;
    siv(&rt)?;
    sha1(&rt)?;
    sha256(&rt)?;
    hmac(&rt)?;
    text(&rt)?;
    utf8(&rt)?;
    key_wrap(&rt)?;
    stock_header(&rt)?;
    stock_chunk(&rt)?;
    stock_file(&rt)?;
    stock_path(&rt)?;
    stock_master_key(&rt)?;
    ctrmac::stock_chunk(&rt)?;
    distinct(&rt)?;
    labels::broken(&rt)?;
    Ok(())
}
