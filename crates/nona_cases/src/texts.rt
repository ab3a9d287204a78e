//! The tokens of a text and the numbers of an input.

use nona_lex::{Cut, Fault, read_tokens};
use nona_store::read_numbers;
use std::test::Fail;

#[test]
fn tokens_stand_where_they_begin(rt: HostRuntime) -> Result<(), Fail> {
    let tokens = read_tokens(rt.alloc(), b"x <<= 10 @")?;
    let fault = Fault::Byte;
    assert_eq!(rt; tokens.cut, Some(Cut { fault, at: 9 }));
    let mut places = Vec::new(rt.alloc());
    for spot in tokens.spots.as_slice() {
        places.push(spot.at)?;
    }
    assert_eq!(rt; places.as_slice(), [0u32, 2, 4, 6].as_slice());
    Ok(())
}

#[test]
fn numbers_of_an_input(rt: HostRuntime) -> Result<(), Fail> {
    let numbers = read_numbers(rt.alloc(), b"7 -9223372036854775808\n\n0")?;
    assert_eq!(rt;
        numbers.as_slice(),
        [7i64, -9223372036854775808, 0].as_slice()
    );
    Ok(())
}
