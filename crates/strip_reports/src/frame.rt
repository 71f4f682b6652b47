// The fixed lines of a page.
ghost use Rattle.std.specs.Prelude.{◌≡◌, ◌++◌, map, OnOk};
ghost use Rattle.strip_reports.specs.Frame.{lines_text, page_end, page_head};

use strip_io::Memory;

// The hash in the security policy is the hash of the style's text.
const HEAD: [&[u8]; 26] = [
    b"<!DOCTYPE html>",
    b"<html lang=\"en\">",
    b"<head>",
    b"<meta charset=\"utf-8\">",
    b"<meta http-equiv=\"Content-Security-Policy\" content=\"default-src 'none'; style-src 'sha256-l9Gf1oK2vHeNqgX452a/JS4pVptrw9V0ihtq4pSDosI='\">",
    b"<title>Strip board</title>",
    b"<style>",
    b"@page { size: landscape; margin: 10mm }",
    b"body { font: 9pt sans-serif }",
    b"table { border-collapse: collapse; margin-bottom: 5mm }",
    b"thead { display: table-header-group; break-inside: avoid }",
    b"tr { break-inside: avoid }",
    b"th, td { border: 1px solid; padding: 1px 3px; vertical-align: bottom }",
    b"th { font-weight: normal }",
    b"td { text-align: right }",
    b"bdi { white-space: pre-wrap; overflow-wrap: anywhere }",
    b".name { min-width: 30mm; max-width: 60mm; text-align: left }",
    b".upright { writing-mode: vertical-rl; text-align: left }",
    b".upright bdi { display: inline-block; max-height: 35mm }",
    b".works, .held { text-align: center }",
    b".works, .warning { font-weight: bold }",
    b".totals { border-top: 3px double }",
    b"</style>",
    b"</head>",
    b"<body>",
    b"<h1>Strip board</h1>",
];

const END: [&[u8]; 2] = [b"</body>", b"</html>"];

/// Appends the lines before the first sentence of a page.
pub(crate) fn push_head(page: &mut Vec<u8>) -> Result<(), Memory>
    ensures { OnOk result (page.new.items ≡ page.old.items ++ page_head) }
{
    push_lines(page, &HEAD)
}

/// Appends the lines after the last table of a page.
pub(crate) fn push_end(page: &mut Vec<u8>) -> Result<(), Memory>
    ensures { OnOk result (page.new.items ≡ page.old.items ++ page_end) }
{
    push_lines(page, &END)
}

fn push_lines(page: &mut Vec<u8>, lines: &[&[u8]]) -> Result<(), Memory>
    ensures { OnOk result (page.new.items ≡ page.old.items ++ lines_text (map (λ line. line.now) lines.now)) }
{
    for line in lines {
        page.extend_from_slice(line)?;
        page.push(b'\n')?;
    }
    Ok(())
}
