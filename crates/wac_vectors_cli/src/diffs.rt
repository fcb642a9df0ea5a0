// Unified diffs, as `diff -u` of GNU writes them.
use std::alloc::Global;
use std::test::Fail;
use wac_diff::unified;

struct Row {
    name: &'static str,
    old: &'static str,
    new: &'static str,
    diff: &'static str,
}

static ROWS: [Row; 9] = [
    Row {
        name: "one line",
        old: "let x =y;\n",
        new: "let x = y;\n",
        diff: "--- f\n+++ f\n@@ -1 +1 @@\n-let x =y;\n+let x = y;\n",
    },
    Row {
        name: "an added end",
        old: "a\nb\n",
        new: "a\nb\nc\n",
        diff: "--- f\n+++ f\n@@ -1,2 +1,3 @@\n a\n b\n+c\n",
    },
    Row {
        name: "no end of the last line",
        old: "a\nb",
        new: "a\nb\n",
        diff: "--- f\n+++ f\n@@ -1,2 +1,2 @@\n a\n-b\n\\ No newline at end of file\n+b\n",
    },
    Row {
        name: "nothing before",
        old: "",
        new: "a\nb\n",
        diff: "--- f\n+++ f\n@@ -0,0 +1,2 @@\n+a\n+b\n",
    },
    Row {
        name: "nothing after",
        old: "a\n",
        new: "",
        diff: "--- f\n+++ f\n@@ -1 +0,0 @@\n-a\n",
    },
    Row {
        name: "two parts",
        old: "1\n2\n3\n4\n5\n6\n7\n8\n9\n10\n11\n12\n",
        new: "1\nx\n3\n4\n5\n6\n7\n8\n9\n10\ny\n12\n",
        diff: "--- f\n+++ f\n@@ -1,5 +1,5 @@\n 1\n-2\n+x\n 3\n 4\n 5\n@@ -8,5 +8,5 @@\n 8\n 9\n 10\n-11\n+y\n 12\n",
    },
    Row {
        name: "near changes",
        old: "1\n2\n3\n4\n5\n6\n7\n8\n9\n",
        new: "1\nx\n3\n4\n5\n6\n7\n8\ny\n",
        diff: "--- f\n+++ f\n@@ -1,9 +1,9 @@\n 1\n-2\n+x\n 3\n 4\n 5\n 6\n 7\n 8\n-9\n+y\n",
    },
    Row {
        name: "removed and added",
        old: "a\nb\nc\nd\ne\nf\ng\n",
        new: "a\nc\nd\nx\ne\nf\nh\ng\n",
        diff: "--- f\n+++ f\n@@ -1,7 +1,8 @@\n a\n-b\n c\n d\n+x\n e\n f\n+h\n g\n",
    },
    Row {
        name: "all lines",
        old: "a\nb\n",
        new: "c\nd\ne\n",
        diff: "--- f\n+++ f\n@@ -1,2 +1,3 @@\n-a\n-b\n+c\n+d\n+e\n",
    },
];

#[test]
fn rows(rt: HostRuntime) -> Result<(), Fail> {
    for row in ROWS.as_slice() {
        let diff = unified(rt.alloc(), "f", row.old, row.new)?;
        let name = row.name;
        assert_eq!(rt; diff.as_str(), row.diff, "{name}");
    }
    Ok(())
}

#[test]
fn heads(rt: HostRuntime) -> Result<(), Fail> {
    let same = unified(rt.alloc(), "f", "a\n", "a\n")?;
    assert_eq!(rt; same.as_str(), "");
    let blank = unified(rt.alloc(), "a b.wac", "a\n", "b\n")?;
    let wanted = "--- a b.wac\t\n+++ a b.wac\t\n@@ -1 +1 @@\n-a\n+b\n";
    assert_eq!(rt; blank.as_str(), wanted);
    Ok(())
}
