//! What a process may open, as the system tells it.
use crate::limits::most_files;

/// The beginning of such a text, as Linux writes it.
const LIMITS: &str = "Limit                     Soft Limit           Hard Limit           Units     
Max cpu time              unlimited            unlimited            seconds   
Max processes             127235               127235               processes 
Max open files            1024                 524288               files     
Max locked memory         65536                65536                bytes     
";

#[test]
fn the_soft_limit_of_open_files_is_read(rt: HostRuntime) {
    let rows = [
        (LIMITS, Some(1024)),
        (
            "Max open files            unlimited            unlimited            files     \n",
            None,
        ),
        (
            "Max processes             127235               127235               processes \n",
            None,
        ),
        ("Max open files\n", None),
        ("", None),
    ];
    for (text, want) in rows {
        assert_eq!(rt; most_files(text), want, "in {text:?}");
    }
}
