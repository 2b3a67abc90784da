//! Whole scripts, and a sink that fails.
use kz_generator::generate;
use kz_io::MemorySink;
use kz_output::OutputFault;
use std::alloc::Global;
use std::test::Fail;

fn sink(alloc: Global, fail: &[u64]) -> Result<MemorySink, Fail> {
    Ok(MemorySink::new(alloc, fail.to_vec(alloc)?, Vec::new(alloc)))
}

const ONE_CHANGE: &str = r#"{"event":"quorum","ids":[3000,3001]}
{"controller":3000,"event":"start"}
{"controller":3001,"event":"start"}
{"controller":3000,"event":"elect"}
{"controller":3000,"event":"turn"}
{"controller":3000,"event":"change","records":[{"kind":"Config","name":"k","resourceName":"1","resourceType":4,"value":"1103527590"}]}
{"controller":3000,"event":"turn"}
{"event":"check"}
"#;

const LAST_LINES: &str = r#"{"controller":3000,"event":"turn"}
{"controller":3001,"event":"elect"}
{"controller":3001,"event":"change","records":[{"kind":"Config","name":"k","resourceName":"1","resourceType":4,"value":"1490228006"}]}
{"controller":3001,"event":"turn"}
{"event":"check"}
"#;

#[test]
fn the_script_with_one_change_has_eight_lines(rt: HostRuntime) -> Result<(), Fail> {
    let alloc = rt.alloc();
    let mut out = sink(alloc, &[])?;
    assert_eq!(rt; generate(alloc, 1, &mut out), Ok(()));
    assert!(rt; out.taken() == ONE_CHANGE.as_bytes());
    Ok(())
}

#[test]
fn the_other_controller_leads_after_a_hundred_changes(rt: HostRuntime) -> Result<(), Fail> {
    let alloc = rt.alloc();
    let mut out = sink(alloc, &[])?;
    assert_eq!(rt; generate(alloc, 101, &mut out), Ok(()));
    let mut lines = 0u64;
    for byte in out.taken() {
        if *byte == b'\n' {
            lines = lines.saturating_add(1);
        }
    }
    assert_eq!(rt; lines, 5 + 101 + 10 + 1 + 2);
    assert!(rt; out.taken().ends_with(LAST_LINES.as_bytes()));
    Ok(())
}

#[test]
fn a_sink_that_fails_ends_the_script(rt: HostRuntime) -> Result<(), Fail> {
    let alloc = rt.alloc();
    let mut out = sink(alloc, &[1])?;
    assert_eq!(rt;
        generate(alloc, 1000, &mut out),
        Err(OutputFault::SinkFailed)
    );
    assert!(rt; out.taken().starts_with(b"{\"event\":\"quorum\""));
    Ok(())
}
