//! Words: worked spellings, and that calls succeed where there is memory.
use ring_words::{
    Address, Caller, Limits, Name, NameFault, NameKind, OfCaller, OfDevice, OfRing, Port, Power,
    Replicas, Weight, parse_decimal,
};
use std::alloc::Global;
use std::fmt::Display;

/// Texts, and the hundredths of the weights that they spell.
static WEIGHTS: [(&str, Option<u32>); 19] = [
    ("0.00", Some(0)),
    ("0.01", Some(1)),
    ("100.00", Some(10_000)),
    ("999999.99", Some(99_999_999)),
    ("1000000.00", Some(100_000_000)),
    ("1000000.01", None),
    ("100.0", None),
    ("0100.00", None),
    (".50", None),
    ("+1.00", None),
    ("1e2", None),
    ("", None),
    ("1.000", None),
    ("1", None),
    ("00.00", None),
    ("-1.00", None),
    ("4294967296.00", None),
    ("1,00", None),
    (" 1.00", None),
];

/// Whether a word is written as this text.
fn is_written<W: Display>(alloc: Global, word: &W, text: &str) -> bool {
    match word.to_string(alloc) {
        Ok(written) => written.as_str() == text,
        Err(_) => false,
    }
}

/// Whether a text spells a weight of so many hundredths, which is written as that text, or none.
fn is_weight(alloc: Global, text: &str, hundredths: Option<u32>) -> bool {
    let Some(weight) = Weight::parse(text) else {
        return hundredths.is_none();
    };
    hundredths == Some(weight.hundredths())
        && Weight::of(weight.hundredths()) == Some(weight)
        && is_written(alloc, &weight, text)
}

#[test]
fn a_weight_has_one_spelling(rt: HostRuntime) {
    for (text, hundredths) in &WEIGHTS {
        assert!(rt; is_weight(rt.alloc(), text, *hundredths), "{text}");
    }
}

/// Texts, and whether they spell an address.
static ADDRESSES: [(&str, bool); 15] = [
    ("0.0.0.0", true),
    ("10.0.0.1", true),
    ("255.255.255.255", true),
    ("1.20.30.4", true),
    ("", false),
    ("1.2.3", false),
    ("1.2.3.4.5", false),
    ("10.0.0.256", false),
    ("01.2.3.4", false),
    ("1.2.3.04", false),
    ("1..2.3", false),
    ("1.2.3.", false),
    (".1.2.3", false),
    ("a.b.c.d", false),
    ("1.2.3.4 ", false),
];

/// Whether a text spells an address, which is written as that text.
fn is_address(alloc: Global, text: &str) -> bool {
    match Address::parse(text) {
        Some(address) => is_written(alloc, &address, text),
        None => false,
    }
}

#[test]
fn an_address_has_one_spelling(rt: HostRuntime) {
    for (text, spells) in &ADDRESSES {
        assert!(rt; is_address(rt.alloc(), text) == *spells, "{text}");
    }
}

/// Whether numbers are bounded, and known again.
fn are_bounded() -> bool {
    Weight::of(100_000_001).is_none()
        && Power::new(0).is_none()
        && Power::new(15).is_none()
        && matches!(Power::new(14), Some(power) if power.get() == 14)
        && Replicas::new(0).is_none()
        && Replicas::new(6).is_none()
        && matches!(Replicas::new(5), Some(replicas) if replicas.get() == 5)
        && Port::new(0).is_none()
}

fn is_greatest_port_written(alloc: Global) -> bool {
    match Port::new(65535) {
        Some(port) => is_written(alloc, &port, "65535"),
        None => false,
    }
}

#[test]
fn numbers_keep_their_bounds(rt: HostRuntime) {
    assert!(rt; are_bounded() && is_greatest_port_written(rt.alloc()));
}

/// Texts, and the numbers that they spell.
static NUMBERS: [(&str, Option<u32>); 5] = [
    ("0", Some(0)),
    ("4294967295", Some(u32::MAX)),
    ("4294967296", None),
    ("01", None),
    ("", None),
];

#[test]
fn a_decimal_number_has_one_spelling(rt: HostRuntime) {
    for (text, number) in &NUMBERS {
        assert!(rt; parse_decimal(text) == *number, "{text}");
    }
}

#[test]
fn a_service_keeps_so_much(rt: HostRuntime) {
    let limits = Limits::full();
    let are_met = limits.rings == 16 && limits.devices == 256 && limits.ids == 65536;
    assert!(rt; are_met && limits.versions == 1000 && limits.numbers == 100_000);
}

/// Whether a text is a name of this kind that says the text, or of none, as is told.
fn is_name<K: NameKind>(alloc: Global, text: &str, expected: bool) -> bool {
    match Name::<K>::new(alloc, text) {
        Ok(name) => expected && name.as_str() == text,
        Err(fault) => !expected && fault == NameFault::Bad,
    }
}

/// Texts, and whether they are names of rings and callers.
static LABELS: [(&str, bool); 12] = [
    ("a", true),
    ("object", true),
    ("object-1", true),
    ("a2345678901234567890123456789012", true),
    ("a23456789012345678901234567890123", false),
    ("", false),
    ("1a", false),
    ("-a", false),
    ("Object", false),
    ("a_b", false),
    ("a b", false),
    ("\u{e9}", false),
];

#[test]
fn names_of_rings_and_callers_keep_their_form(rt: HostRuntime) {
    for (text, expected) in &LABELS {
        let of_ring = is_name::<OfRing>(rt.alloc(), text, *expected);
        let of_caller = is_name::<OfCaller>(rt.alloc(), text, *expected);
        assert!(rt; of_ring && of_caller, "{text}");
    }
}

/// Texts, and whether they are names of devices.
static DEVICE_NAMES: [(&str, bool); 8] = [
    ("1", true),
    ("_", true),
    ("-", true),
    ("Sd_A-1", true),
    ("", false),
    ("a.b", false),
    ("a b", false),
    ("\u{e9}", false),
];

#[test]
fn names_of_devices_keep_their_form(rt: HostRuntime) {
    for (text, expected) in &DEVICE_NAMES {
        assert!(rt; is_name::<OfDevice>(rt.alloc(), text, *expected), "{text}");
    }
}

fn is_copied_and_written(alloc: Global) -> Option<bool> {
    let name = Caller::new(alloc, "ops").ok()?;
    Some(name.clone().ok()? == name && is_written(alloc, &name, "ops"))
}

#[test]
fn a_name_is_copied_and_written(rt: HostRuntime) {
    assert!(rt; matches!(is_copied_and_written(rt.alloc()), Some(true)));
}
