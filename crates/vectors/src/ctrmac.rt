// Headers, chunks and a file of SIV_CTRMAC.
use crate::{opened_header, print, vault_of};
use content::chunk::{open_chunk, write_chunk};
use content::header::write_header;
use file_read::{open_file, read_range};
use file_reader::twice::read_twice;
use file_write::write_file;
use std::io;
use vault::record::{Combo, Vault};

// The stock program's chunk, under keys and nonces of zeros.
pub fn stock_chunk(rt: &impl Print) -> io::Result<()> {
    let zeros = [0u8; 32];
    let nonce = [0u8; 16];
    let v = vault_of(&zeros, &zeros, Combo::SivCtrmac);
    let mut chunk = [0u8; 59];
    let _ = write_chunk(v, &zeros, &nonce, 0, &nonce, b"hello world", &mut chunk);
    print(rt, &chunk)?;
    Ok(())
}

// A header, and what it opens to; and what the same header with other reserved bytes does.
fn header(rt: &impl Print, v: Vault, nonce: &[u8], content_key: &[u8]) -> io::Result<()> {
    let mut header = [0u8; 88];
    let _ = write_header(v, nonce, content_key, &mut header);
    print(rt, &header)?;
    opened_header(rt, v, &header)?;
    let other =
        b"\xa0\xa1\xa2\xa3\xa4\xa5\xa6\xa7\xa8\xa9\xaa\xab\xac\xad\xae\xaf\x5d\x1d\x82\x79\xf3\x3e\xfb\x85\x4f\x0a\xaa\xc6\x4f\x4e\xaa\xa7\xa9\x98\xa1\x5a\x30\x0c\xdb\x67\xbc\xdb\xaa\xd9\x33\x65\x85\xc8\xc1\xb2\xbe\xf9\xb4\x3a\xc7\x55\xf0\xed\x11\x4a\xa4\x80\xef\x8e\x30\xf6\xe1\x23\x5a\x86\x33\xea\x94\xe0\xa7\xc0\xab\xc2\xa7\x32\xe9\x67\x55\xd5\x7e\x2d\x18\xf7";
    opened_header(rt, v, other)?;
    Ok(())
}

// A chunk whose number has eight different bytes, and what it opens to.
fn chunk(rt: &impl Print, v: Vault, content_key: &[u8], header_nonce: &[u8]) -> io::Result<()> {
    let number = 0x0102030405060708;
    let nonce = b"\xb0\xb1\xb2\xb3\xb4\xb5\xb6\xb7\xb8\xb9\xba\xbb\xbc\xbd\xbe\xbf";
    let text = b"hello world";
    let mut chunk = [0u8; 59];
    let _ = write_chunk(
        v,
        content_key,
        header_nonce,
        number,
        nonce,
        text,
        &mut chunk,
    );
    print(rt, &chunk)?;
    let mut cleartext = [0u8; 11];
    let _ = open_chunk(v, content_key, header_nonce, number, &chunk, &mut cleartext);
    print(rt, &cleartext)?;
    Ok(())
}

// Chunk 3 of the bytes 01 to 28, from a nonce of all ones: the counter goes to zero after the first block.
fn wrapped_counter(
    rt: &impl Print,
    v: Vault,
    content_key: &[u8],
    header_nonce: &[u8],
) -> io::Result<()> {
    let nonce = [0xffu8; 16];
    let text =
        b"\x01\x02\x03\x04\x05\x06\x07\x08\x09\x0a\x0b\x0c\x0d\x0e\x0f\x10\x11\x12\x13\x14\x15\x16\x17\x18\x19\x1a\x1b\x1c\x1d\x1e\x1f\x20\x21\x22\x23\x24\x25\x26\x27\x28";
    let mut chunk = [0u8; 88];
    let _ = write_chunk(v, content_key, header_nonce, 3, &nonce, text, &mut chunk);
    print(rt, &chunk)?;
    Ok(())
}

// A file of one chunk, what it opens to, its last five bytes, and these and its first five through one reader.
fn file(rt: &impl Print, v: Vault, content_key: &[u8], header_nonce: &[u8]) -> io::Result<()> {
    let nonce = b"\xb0\xb1\xb2\xb3\xb4\xb5\xb6\xb7\xb8\xb9\xba\xbb\xbc\xbd\xbe\xbf";
    let text = b"hello world";
    let mut file = [0u8; 147];
    let _ = write_file(v, header_nonce, content_key, nonce, text, &mut file);
    print(rt, &file)?;
    let mut cleartext = [0u8; 11];
    let _ = open_file(v, &file, &mut cleartext);
    print(rt, &cleartext)?;
    let mut part = [0u8; 5];
    let _ = read_range(v, &file, 6, 5, &mut part);
    print(rt, &part)?;
    let mut last = [0u8; 5];
    let mut first = [0u8; 5];
    read_twice(v, &file, 6, 5, &mut last, 0, 5, &mut first);
    print(rt, &last)?;
    print(rt, &first)?;
    Ok(())
}

// The values under inputs that all differ.
pub fn distinct(rt: &impl Print, v: Vault, content_key: &[u8]) -> io::Result<()> {
    let header_nonce = b"\xa0\xa1\xa2\xa3\xa4\xa5\xa6\xa7\xa8\xa9\xaa\xab\xac\xad\xae\xaf";
    header(rt, v, header_nonce, content_key)?;
    chunk(rt, v, content_key, header_nonce)?;
    wrapped_counter(rt, v, content_key, header_nonce)?;
    file(rt, v, content_key, header_nonce)?;
    Ok(())
}
