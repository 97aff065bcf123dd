// Words that are refused, each by its name, before a byte is read.
use crate::tests::answers;
use crate::tests::captures::{HEADER, SEGMENT, capture_of};
use std::test::Fail;

#[test]
fn refused_words_say_which(rt: HostRuntime) -> Result<(), Fail> {
    let lists: [(&[&str], &str); 11] = [
        (&[], "rsspp: words refused\n"),
        (&["other"], "rsspp: bad mode\n"),
        (&["Report"], "rsspp: bad mode\n"),
        (&["hash", "5"], "rsspp: bad values\n"),
        (&["report", "report"], "rsspp: bad values\n"),
        (
            &["report", "--cores", "2", "--cores", "2"],
            "rsspp: words refused\n",
        ),
        (&["report", "--cores", "65"], "rsspp: bad option --cores\n"),
        (
            &["report", "--buckets", "3"],
            "rsspp: bad option --buckets\n",
        ),
        (
            &["report", "--buckets", "4096"],
            "rsspp: bad option --buckets\n",
        ),
        (
            &["report", "--serial", "4294967296"],
            "rsspp: bad option --serial\n",
        ),
        (
            &["report", "--cores", "2", "--buckets", "2", "--table", "0,2"],
            "rsspp: bad option --table\n",
        ),
    ];
    for (words, notes) in lists {
        assert!(rt; answers(&rt, rt.alloc(), words, &HEADER, 2, "", notes)?);
    }
    Ok(())
}

#[test]
fn a_report_of_too_many_packets_ends(rt: HostRuntime) -> Result<(), Fail> {
    let mut capture = capture_of(rt.alloc(), &[(SEGMENT.as_slice(), 60); 4])?;
    let words: [&str; 3] = ["report", "--packets", "3"];
    let notes = "rsspp: more than 3 packets\n";
    assert!(rt; answers(&rt, rt.alloc(), &words, &capture, 7, "", notes)?);
    // A cut fourth record is what the capture says first.
    capture.truncate(24 + 3 * 70 + 26);
    let notes = "rsspp: capture refused: record 3 ends after 26 bytes\n";
    assert!(rt; answers(&rt, rt.alloc(), &words, &capture, 3, "", notes)?);
    Ok(())
}

#[test]
fn as_many_packets_as_the_limit_are_reported(rt: HostRuntime) -> Result<(), Fail> {
    let capture = capture_of(rt.alloc(), &[(SEGMENT.as_slice(), 60); 3])?;
    let words: [&str; 3] = ["report", "--packets", "3"];
    let text = "tcp 66.9.149.187:2794 > 161.142.100.80:1766 packets 3 bytes 180\n\
        total flows 1 packets 3 bytes 180\n";
    assert!(rt; answers(&rt, rt.alloc(), &words, &capture, 0, text, "")?);
    Ok(())
}

#[test]
fn the_largest_table_reports_alike(rt: HostRuntime) -> Result<(), Fail> {
    let capture = capture_of(rt.alloc(), &[(SEGMENT.as_slice(), 60)])?;
    let words: [&str; 3] = ["report", "--buckets", "2048"];
    let text = "tcp 66.9.149.187:2794 > 161.142.100.80:1766 packets 1 bytes 60\n\
        total flows 1 packets 1 bytes 60\n";
    assert!(rt; answers(&rt, rt.alloc(), &words, &capture, 0, text, "")?);
    Ok(())
}
