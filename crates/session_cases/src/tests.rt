use column::column::ROW_LIMIT;
use sessions::report::report;
use std::alloc::{AllocError, Global};
use std::process::Abort;
use std::test::Fail;

// The report of a text, or the message that refuses it.
fn answer(heap: Global, text: &str) -> Result<String, AllocError> {
    report(heap, text).or_else(|refusal| refusal.to_string(heap))
}

fn says(rt: &impl Abort, heap: Global, text: &str, want: &str) -> Result<(), Fail> {
    let found = answer(heap, text)?;
    assert_eq!(rt; found.as_str(), want);
    Ok(())
}

#[test]
fn interleaved_sessions(rt: HostRuntime) -> Result<(), Fail> {
    let heap = rt.alloc();
    says(
        &rt,
        heap,
        "instant,session,renewed_expiry\r\n1,a,\r\n2,b,70\r\n3,a,-80\r\n4,b,\r\n5,a,",
        "instant,session,renewed_expiry,last_renewed_expiry\n1,a,,\n2,b,70,\n3,a,-80,\n4,b,,70\n5,a,,-80\n# sessions: 2\n# records: 5\n# empty expiries: 3\n# answers found: 2\n# defaults: 3\n",
    )
}

#[test]
fn no_records(rt: HostRuntime) -> Result<(), Fail> {
    let heap = rt.alloc();
    says(
        &rt,
        heap,
        "session,instant,renewed_expiry",
        "session,instant,renewed_expiry,last_renewed_expiry\n# sessions: 0\n# records: 0\n# empty expiries: 0\n# answers found: 0\n# defaults: 0\n",
    )
}

#[test]
fn bad_headers(rt: HostRuntime) -> Result<(), Fail> {
    let heap = rt.alloc();
    says(&rt, heap, "", "1: no header: the file is empty")?;
    says(
        &rt,
        heap,
        "session,renewed_expiry\n",
        "1: no column \"instant\"",
    )?;
    says(
        &rt,
        heap,
        "session,instant,session,renewed_expiry\n",
        "1: column \"session\" comes twice",
    )?;
    says(
        &rt,
        heap,
        "session,\"instant\",renewed_expiry\n",
        "1: a double quote: quoted fields are not read",
    )
}

#[test]
fn bad_records(rt: HostRuntime) -> Result<(), Fail> {
    let heap = rt.alloc();
    says(
        &rt,
        heap,
        "session,instant,renewed_expiry\na,1,2\nb,1\n",
        "3: 2 fields where the header has 3",
    )?;
    says(
        &rt,
        heap,
        "session,instant,renewed_expiry\n,1,2\n",
        "2: session is empty",
    )?;
    says(
        &rt,
        heap,
        "session,instant,renewed_expiry\na,1,\na,1,12x",
        "3: renewed_expiry is no whole number of 64 bits: \"12x\"",
    )?;
    says(
        &rt,
        heap,
        "session,instant,renewed_expiry\na,,2\n",
        "2: instant is no whole number of 64 bits: \"\"",
    )?;
    says(
        &rt,
        heap,
        "session,instant,renewed_expiry\na,1,9223372036854775808\n",
        "2: renewed_expiry is no whole number of 64 bits: \"9223372036854775808\"",
    )?;
    says(
        &rt,
        heap,
        "session,instant,renewed_expiry\na\"b,1,2\n",
        "2: a double quote: quoted fields are not read",
    )
}

#[test]
fn full_session(rt: HostRuntime) -> Result<(), Fail> {
    let heap = rt.alloc();
    let mut text = String::from_str(heap, "session,instant,renewed_expiry\n")?;
    for _ in 0..=ROW_LIMIT {
        text.push_str("a,1,\n")?;
    }
    says(
        &rt,
        heap,
        text.as_str(),
        "16777218: session \"a\" has more than 16777216 records",
    )
}
