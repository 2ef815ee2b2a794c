//! The form of a report.

/// The report of these lines, which stand between its first and its last.
#[macro_export]
macro_rules! report_of {
    ($($line:literal),+ $(,)?) => {
        concat!("report\n", $($line, "\n",)+ "done\n")
    };
}
