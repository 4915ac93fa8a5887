// Sums, products and codes of both kinds, worked out by hand.
use crate::depth::Depth;
use crate::factor::Factor;
use crate::fault::CodeFault;
use crate::whole::Whole;
use std::alloc::AllocError;

#[test]
fn whole_numbers_wrap(rt: HostRuntime) {
    let six = Whole::new(2).multiply(Whole::new(3));
    assert_eq!(rt; six.add(Whole::new(5)).value(), 11);
    assert_eq!(rt; Whole::new(i32::MAX).add(Whole::one()).value(), i32::MIN);
    assert_eq!(rt;
        Whole::new(65536).multiply(Whole::new(65536)),
        Whole::zero()
    );
    assert_eq!(rt; Whole::new(7).opposite().value(), -7);
    assert_eq!(rt; Whole::new(i32::MIN).opposite().value(), i32::MIN);
}

#[test]
fn whole_numbers_have_codes(rt: HostRuntime) {
    assert_eq!(rt; Whole::new(i32::MAX).code(), 0x7fff_ffff);
    assert_eq!(rt; Whole::new(i32::MIN).code(), 0x8000_0000);
    assert_eq!(rt; Whole::new(-1).code(), 0xffff_ffff);
    assert_eq!(rt; Whole::decode(0xffff_fffe), Ok(Whole::new(-2)));
    assert_eq!(rt;
        Whole::decode(1 << Whole::code_width()),
        Err(CodeFault::BitAboveWidth)
    );
}

#[test]
fn depths_drop_higher_places(rt: HostRuntime) {
    let first = Depth::new(0, 1, 0, 0);
    assert_eq!(rt; first.multiply(first).places(), [0, 0, 1, 0]);
    assert_eq!(rt;
        Depth::new(1, 2, 3, 4)
            .multiply(Depth::new(5, 6, 7, 8))
            .places(),
        [5, 16, 34, 60]
    );
    let largest = Depth::new(4095, 4095, 4095, 4095);
    assert_eq!(rt; largest.multiply(largest).places(), [1, 2, 3, 4]);
    assert_eq!(rt; largest.add(Depth::one()).places(), [0, 4095, 4095, 4095]);
    assert_eq!(rt;
        Depth::new(1, 0, 4095, 2).opposite().places(),
        [4095, 0, 1, 4094]
    );
    assert_eq!(rt;
        Depth::new(4096, 4097, 65535, 0).add(Depth::zero()).places(),
        [0, 1, 4095, 0]
    );
}

#[test]
fn depths_have_codes(rt: HostRuntime) {
    assert_eq!(rt; Depth::new(1, 2, 3, 4).code(), 0x001_002_003_004);
    assert_eq!(rt; Depth::new(4095, 4095, 4095, 4095).code(), 0xffff_ffff_ffff);
    assert_eq!(rt;
        Depth::decode(0x001_002_003_004),
        Ok(Depth::new(1, 2, 3, 4))
    );
    assert_eq!(rt;
        Depth::decode(1 << Depth::code_width()),
        Err(CodeFault::BitAboveWidth)
    );
}

#[test]
fn a_bit_above_the_width_is_thirteen(rt: HostRuntime) {
    assert_eq!(rt; CodeFault::BitAboveWidth.number(), 13);
}

#[test]
fn a_refused_code_prints_its_number(rt: HostRuntime) -> Result<(), AllocError> {
    let text = CodeFault::BitAboveWidth.to_string(rt.alloc())?;
    assert_eq!(rt; text.as_str(), "number 13");
    Ok(())
}

#[test]
fn a_depth_prints_its_numbers_by_name(rt: HostRuntime) -> Result<(), AllocError> {
    let depth = Depth::new(1, 4095, 4096, 65535);
    let text = format!(in rt.alloc(); "{depth:?}")?;
    assert_eq!(rt; text.as_str(), "Depth { c0: 1, c1: 4095, c2: 0, c3: 4095 }");
    let lines = format!(in rt.alloc(); "{depth:#?}")?;
    assert_eq!(rt;
        lines.as_str(),
        "Depth {\n    c0: 1,\n    c1: 4095,\n    c2: 0,\n    c3: 4095,\n}"
    );
    Ok(())
}
