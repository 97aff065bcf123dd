// Every way in which a line can be broken.
use super::{is_bad_at, plans};
use std::alloc::Global;
use std::test::Fail;

const HEAD: &str = "cores 2\nlimit 4\nbase 0 0\n";

// Whether this line of each text is the first bad one.
fn are_bad_at(alloc: Global, texts: &[&str], line: u32) -> Result<bool, Fail> {
    for text in texts {
        if !is_bad_at(alloc, text.as_bytes(), line)? {
            return Ok(false);
        }
    }
    Ok(true)
}

#[test]
fn a_broken_line_of_cores(rt: HostRuntime) -> Result<(), Fail> {
    let texts = [
        "",
        "\n",
        "cores",
        "cores ",
        "cores 0\n",
        "cores 65\n",
        "cores 2 2\n",
        "core 2\n",
        "corses 2\n",
        " cores 2\n",
        "cores  2\n",
        "cores 2 \n",
        "cores\t2\n",
        "cores 2\r\n",
        "cores +2\n",
        "cores 2x\n",
        "Cores 2\n",
        "cores2\n",
        "cores -1\n",
        "cores 2\0\n",
    ];
    assert!(rt; are_bad_at(rt.alloc(), &texts, 1)?);
    Ok(())
}

#[test]
fn a_broken_line_of_the_limit(rt: HostRuntime) -> Result<(), Fail> {
    let texts = [
        "cores 2",
        "cores 2\n",
        "cores 2\n\n",
        "cores 2\nlimit",
        "cores 2\nlimit 17\n",
        "cores 2\nlimit 4 4\n",
        "cores 2\nlimits 4\n",
        "cores 2\ncores 2\n",
        "cores 2\nlimit 00000000000004\n",
    ];
    assert!(rt; are_bad_at(rt.alloc(), &texts, 2)?);
    Ok(())
}

#[test]
fn a_broken_line_of_bases(rt: HostRuntime) -> Result<(), Fail> {
    let texts = [
        "cores 2\nlimit 4",
        "cores 2\nlimit 4\nbase 0",
        "cores 2\nlimit 4\nbase 0\n",
        "cores 2\nlimit 4\nbase 0 0 0\n",
        "cores 2\nlimit 4\nbase\n",
        "cores 2\nlimit 4\nbase 0 1099511627777\n",
        "cores 2\nlimit 4\nbase 0  0\n",
        "cores 2\nlimit 4\nbases 0 0\n",
    ];
    assert!(rt; are_bad_at(rt.alloc(), &texts, 3)?);
    Ok(())
}

// Whether a text of three good lines and this one is bad at its fourth line.
fn is_bad_bucket(alloc: Global, line: &str) -> Result<bool, Fail> {
    let mut text = String::from_str(alloc, HEAD)?;
    text.push_str(line)?;
    is_bad_at(alloc, text.as_bytes(), 4)
}

#[test]
fn a_broken_line_of_a_bucket(rt: HostRuntime) -> Result<(), Fail> {
    let lines = [
        "",
        "\n",
        "bucket",
        "bucket 0",
        "bucket 0\n",
        "bucket 2 1\n",
        "bucket 0 1 1\n",
        "bucket 0 1099511627777\n",
        "bucket 0 12345678901234\n",
        "buckets 0 1\n",
        "bucket 0  1\n",
        "bucket 0 1 \n",
        "base 0 0\n",
        "bucket 256 1\n",
        "bucket 0 1,5\n",
    ];
    for line in lines {
        assert!(rt; is_bad_bucket(rt.alloc(), line)?);
    }
    Ok(())
}

#[test]
fn a_line_behind_the_buckets(rt: HostRuntime) -> Result<(), Fail> {
    let text = "cores 2\nlimit 4\nbase 0 0\nbucket 0 1\n\n";
    assert!(rt; is_bad_at(rt.alloc(), text.as_bytes(), 5)?);
    Ok(())
}

// A text with so many buckets.
fn buckets(alloc: Global, count: u32) -> Result<String, Fail> {
    let mut text = String::from_str(alloc, HEAD)?;
    for _ in 0..count {
        text.push_str("bucket 1 0\n")?;
    }
    Ok(text)
}

#[test]
fn as_many_buckets_as_there_may_be(rt: HostRuntime) -> Result<(), Fail> {
    let text = buckets(rt.alloc(), 2_048)?;
    assert!(rt; plans(rt.alloc(), &text, "loads 0 0\nimbalance 0\n")?);
    Ok(())
}

#[test]
fn one_bucket_more(rt: HostRuntime) -> Result<(), Fail> {
    let text = buckets(rt.alloc(), 2_049)?;
    assert!(rt; is_bad_at(rt.alloc(), text.as_bytes(), 2_052)?);
    Ok(())
}

#[test]
fn leading_zeros_are_accepted(rt: HostRuntime) -> Result<(), Fail> {
    let text = "cores 0000000000002\nlimit 016\nbase 00 0000000000007\nbucket 01 0003";
    assert!(rt;
        plans(
            rt.alloc(),
            text,
            "move 0 1 0 gain 21\nloads 3 7\nimbalance 32\n"
        )?
    );
    Ok(())
}

// A line of three kilobytes.
fn long_line(alloc: Global) -> Result<Vec<u8>, Fail> {
    let mut text = b"cores".to_vec(alloc)?;
    for _ in 0..3_000 {
        text.push(b'1')?;
    }
    Ok(text)
}

#[test]
fn a_line_that_is_too_long(rt: HostRuntime) -> Result<(), Fail> {
    let text = long_line(rt.alloc())?;
    assert!(rt; is_bad_at(rt.alloc(), &text, 1)?);
    Ok(())
}

// A text whose third line has so many bases of 0, and this behind them: with 998 of them the line
// has 2,000 bytes.
fn wide_bases(alloc: Global, behind: &str) -> Result<String, Fail> {
    let mut text = String::from_str(alloc, "cores 2\nlimit 4\nbase")?;
    for _ in 0..998 {
        text.push_str(" 0")?;
    }
    text.push_str(behind)?;
    Ok(text)
}

#[test]
fn a_line_of_2000_bytes_and_one_of_2001(rt: HostRuntime) -> Result<(), Fail> {
    for behind in ["", "\n", "\nbucket 0 1\n", "0", "0\n", "0\nbucket 0 1\n"] {
        let text = wide_bases(rt.alloc(), behind)?;
        assert!(rt; is_bad_at(rt.alloc(), text.as_bytes(), 3)?);
    }
    Ok(())
}
