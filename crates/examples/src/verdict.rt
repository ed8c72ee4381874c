// Whether an example came out as it was expected to.
pub fn verdict(met: bool) -> &'static str {
    if met {
        "as expected"
    } else {
        "NOT as expected"
    }
}
