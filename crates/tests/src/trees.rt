//! The documentation in a tree, which nothing prints.
use psl_text::{Entry, Tree, read_tree};
use qe_text::{Items, Memory, Text};
use std::alloc::Global;
use std::test::Fail;

/// Each line of documentation between slashes, then a name.
fn push_item(text: &mut String, docs: &Items<Text>, name: &str) -> Result<(), Memory> {
    for doc in docs.as_slice() {
        text.push('/')?;
        text.push_str(doc.as_str())?;
        text.push('/')?;
    }
    text.push_str(name)?;
    text.push(';')?;
    Ok(())
}

fn push_entry(text: &mut String, entry: &Entry) -> Result<(), Memory> {
    match entry {
        Entry::Setting { name, .. } => {
            text.push_str(name.text.as_str())?;
            text.push(';')?;
            Ok(())
        }
        Entry::Member { name, docs, .. } => push_item(text, docs, name.text.as_str()),
        Entry::Field { name, docs, .. } => push_item(text, docs, name.text.as_str()),
        Entry::Block { attribute, docs } => push_item(text, docs, attribute.name.text.as_str()),
    }
}

/// The blocks and their entries, each with its documentation.
fn shown(alloc: Global, tree: &Tree) -> Result<String, Memory> {
    let mut text = String::new(alloc);
    for block in tree.blocks.as_slice() {
        push_item(&mut text, &block.docs, block.name.text.as_str())?;
        for entry in block.entries.as_slice() {
            push_entry(&mut text, entry)?;
        }
    }
    Ok(text)
}

#[test]
fn keeps_documentation(rt: HostRuntime) -> Result<(), Fail> {
    let alloc = rt.alloc();
    let rows: [(&[u8], &str); 11] = [
        (b"/// a\nmodel A{}", "/ a/A;"),
        (b"///a \t\r\n  ///b\n  model A{}", "/a//b/A;"),
        (b"////x\nmodel A{}", "//x/A;"),
        (b"///\nmodel A{}", "//A;"),
        (b"/// a\n\nmodel A{}", "A;"),
        (b"/// a\n// b\nmodel A{}", "A;"),
        (b"// b\n/// a\nmodel A{}", "/ a/A;"),
        (b"model A{ /// a\nb C\n}", "A;b;"),
        (
            b"model A{\n/// a\nb C /// d\n/// e\n@@f\n}",
            "A;/ a/b;/ e/f;",
        ),
        (b"enum A{\n/// a\nb\n}", "A;/ a/b;"),
        (b"generator g{\n/// a\nx=1\n}\n/// end", "g;x;"),
    ];
    for (text, wanted) in rows {
        let tree = read_tree(alloc, text)?;
        assert_eq!(rt; shown(alloc, &tree)?.as_str(), wanted);
    }
    Ok(())
}
