// Values from the C and Verilog standards, and what a C compiler prints.
use crate::expected::expect;
use hls_ints::{
    ArithmeticFault, CType, c_add, c_and, c_div, c_equal, c_less, c_mul, c_neg, c_not, c_or, c_rem,
    c_shl, c_shr, c_sub, c_xor, operators, promote, usual, v_add, v_and, v_div, v_equal, v_less,
    v_mul, v_not, v_or, v_rem, v_sar, v_sdiv, v_shl, v_shr, v_sless, v_srem, v_sub, v_xor, wrap,
};
use std::test::Fail;

const CHAR: CType = CType {
    width: 8,
    signed: true,
};

const UNSIGNED_CHAR: CType = CType {
    width: 8,
    signed: false,
};

const SHORT: CType = CType {
    width: 16,
    signed: true,
};

const INT_LEAST: i128 = -2147483648;

const INT_MOST: i128 = 2147483647;

#[test]
fn conversions(rt: HostRuntime) {
    expect(&rt, wrap(CHAR, 200), -56);
    expect(&rt, wrap(SHORT, 70000), 4464);
    expect(&rt, wrap(UNSIGNED_CHAR, 300), 44);
    expect(&rt, wrap(CType::UNSIGNED_INT, -1), 4294967295);
    expect(&rt, wrap(CType::LONG, 18446744073709551615), -1);
}

#[test]
fn types(rt: HostRuntime) {
    expect(&rt, promote(SHORT), CType::INT);
    expect(&rt, promote(CType::UNSIGNED_INT), CType::UNSIGNED_INT);
    expect(&rt, usual(CHAR, UNSIGNED_CHAR), CType::INT);
    expect(
        &rt,
        usual(CType::INT, CType::UNSIGNED_INT),
        CType::UNSIGNED_INT,
    );
    expect(&rt, usual(CType::UNSIGNED_INT, CType::LONG), CType::LONG);
    expect(
        &rt,
        usual(CType::UNSIGNED_LONG, CType::LONG),
        CType::UNSIGNED_LONG,
    );
}

#[test]
fn arithmetic(rt: HostRuntime) {
    let most = 18446744073709551615;
    expect(&rt, c_div(CType::INT, -7, 2), Some(-3));
    expect(&rt, c_rem(CType::INT, -7, 2), Some(-1));
    expect(&rt, c_rem(CType::INT, 7, -2), Some(1));
    expect(&rt, c_sub(CType::UNSIGNED_INT, 0, 1), Some(4294967295));
    expect(
        &rt,
        c_mul(CType::UNSIGNED_INT, 3000000000, 3),
        Some(410065408),
    );
    expect(&rt, c_mul(CType::UNSIGNED_LONG, most, most), Some(1));
    expect(&rt, c_add(CType::INT, INT_MOST, 1), None);
    expect(&rt, c_neg(CType::INT, INT_LEAST), None);
    expect(&rt, c_div(CType::INT, INT_LEAST, -1), None);
    expect(&rt, c_rem(CType::INT, INT_LEAST, -1), None);
    expect(&rt, c_less(CType::INT, -1, 1), Some(1));
    expect(&rt, c_equal(CType::INT, -1, 1), Some(0));
    expect(&rt, c_not(CType::INT, 5), Some(-6));
    expect(&rt, c_not(CType::UNSIGNED_INT, 0), Some(4294967295));
    expect(&rt, c_and(CType::INT, -6, 12), Some(8));
    expect(&rt, c_or(CType::INT, -6, 12), Some(-2));
    expect(&rt, c_xor(CType::INT, -6, 12), Some(-10));
    expect(&rt, c_shr(CType::INT, -8, 1), Some(-4));
    expect(&rt, c_shl(CType::INT, 1, 30), Some(1073741824));
    expect(&rt, c_shl(CType::INT, 1, 31), None);
    expect(&rt, c_shl(CType::UNSIGNED_INT, 3, 31), Some(2147483648));
    expect(&rt, c_shl(CType::INT, 1, 32), None);
    expect(&rt, c_shr(CType::INT, 1, -1), None);
}

#[test]
fn causes(rt: HostRuntime) {
    expect(
        &rt,
        operators::multiply(CType::INT, INT_MOST, 2),
        Err(ArithmeticFault::Overflow),
    );
    expect(
        &rt,
        operators::divide(CType::INT, INT_LEAST, 0),
        Err(ArithmeticFault::Divisor),
    );
    expect(
        &rt,
        operators::remainder(CType::INT, INT_LEAST, -1),
        Err(ArithmeticFault::Overflow),
    );
    expect(
        &rt,
        operators::shift_left(CType::INT, -1, 1),
        Err(ArithmeticFault::Shift),
    );
    expect(
        &rt,
        operators::shift_right(CType::LONG, 1, 64),
        Err(ArithmeticFault::Shift),
    );
}

#[test]
fn cause_names(rt: HostRuntime) -> Result<(), Fail> {
    let overflow = ArithmeticFault::Overflow;
    let divisor = ArithmeticFault::Divisor;
    let shift = ArithmeticFault::Shift;
    let names = format!(in rt.alloc(); "{overflow}, {divisor}, {shift}")?;
    let are_names = names.as_str() == "overflow, divisor, shift";
    assert!(rt; are_names);
    Ok(())
}

#[test]
fn words(rt: HostRuntime) {
    expect(&rt, v_add(8, 200, 100), 44);
    expect(&rt, v_sub(4, 2, 3), 15);
    expect(
        &rt,
        v_mul(64, 18446744073709551615, 3),
        18446744073709551613,
    );
    expect(
        &rt,
        v_div(64, 18446744073709551615, 10),
        1844674407370955161,
    );
    expect(&rt, v_rem(8, 249, 2), 1);
    expect(&rt, v_sdiv(8, 249, 2), 253);
    expect(&rt, v_srem(8, 249, 2), 255);
    expect(&rt, v_sdiv(8, 128, 255), 128);
    expect(&rt, v_srem(8, 128, 255), 0);
    expect(&rt, v_sdiv(8, 7, 0), 0);
    expect(&rt, v_srem(8, 7, 256), 0);
    expect(&rt, v_div(8, 7, 0), 0);
    expect(&rt, v_rem(8, 7, 256), 0);
    expect(&rt, v_less(1, 0, 1), 1);
    expect(&rt, v_sless(1, 0, 1), 0);
    expect(&rt, v_equal(4, 3, 19), 1);
    expect(&rt, v_not(4, 10), 5);
    expect(&rt, v_and(4, 12, 10), 8);
    expect(&rt, v_or(4, 12, 10), 14);
    expect(&rt, v_xor(4, 12, 10), 6);
    expect(&rt, v_shl(4, 11, 2), 12);
    expect(&rt, v_shr(4, 11, 2), 2);
    expect(&rt, v_sar(4, 8, 2), 14);
    expect(&rt, v_sar(4, 8, 100), 15);
    expect(&rt, v_sar(8, 0x90, 1), 0xc8);
    expect(
        &rt,
        v_sar(64, 9223372036854775808, 63),
        18446744073709551615,
    );
}
