//! The system's own host.
use qe_base::{FetchFault, Host, Sink};
use qe_cli::StdHost;
use std::fs;
use std::test::Fail;

#[test]
fn fetches_the_front_of_a_file(rt: HostRuntime) -> Result<(), Fail> {
    fs::write(&rt, "letters", "abcde")?;
    let mut host = StdHost::new(rt);
    for (name, most, want) in [
        ("letters", usize::MAX, Ok("abcde")),
        ("letters", 5, Ok("abcde")),
        ("letters", 2, Ok("abc")),
        ("numbers", 2, Err(FetchFault::Failed)),
        (".", 2, Err(FetchFault::Failed)),
    ] {
        match host.fetch(name, most) {
            Ok(got) => assert_eq!(rt; Ok(got.as_slice()), want.map(str::as_bytes)),
            Err(got) => assert_eq!(rt; Err(got), want),
        }
    }
    assert_eq!(rt; host.write(&[]), Ok(0));
    Ok(())
}
