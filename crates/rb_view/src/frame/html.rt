//! The elements of a page. Made of assets/page.html by `tests/page/assemble.py sources`.

/// The page's head, up to its style.
#[rattlefmt::skip]
pub(crate) const HEAD: &[u8] = b"\
<!DOCTYPE html>\n\
<html lang=\"en\">\n\
<head>\n\
<meta charset=\"utf-8\">\n\
<meta http-equiv=\"Content-Security-Policy\" content=\"default-src 'none'; style-src 'sha256-046fT5OB3MQcJOmuLiMKF8Gl6D3StI5nsFsvVHNOOsg='; script-src 'sha256-bHZskJwBzcM+d8RW4ch4RUaqa0Lif9ck7DLlEmole8M='; base-uri 'none'; form-action 'none'\">\n\
<meta name=\"viewport\" content=\"width=device-width, initial-scale=1\">\n\
<meta name=\"referrer\" content=\"no-referrer\">\n\
<title>raftbench</title>\n\
<style>";

/// From behind the style up to the rows.
#[rattlefmt::skip]
pub(crate) const BODY: &[u8] = b"\
</style>\n\
</head>\n\
<body>\n\
<header id=\"top\">\n\
<h1 id=\"name\">raftbench</h1>\n\
<p id=\"counts\"></p>\n\
<p id=\"where\"></p>\n\
<p id=\"said\" class=\"unseen\" role=\"status\" aria-live=\"polite\"></p>\n\
<div id=\"keys\" role=\"toolbar\" aria-label=\"Steps\" hidden>\n\
<button type=\"button\" id=\"last-step\" aria-label=\"directive before\"><kbd>\xe2\x86\x91</kbd></button>\n\
<button type=\"button\" id=\"next-step\" aria-label=\"next directive\"><kbd>\xe2\x86\x93</kbd> directive</button>\n\
<button type=\"button\" id=\"last-event\" aria-label=\"event before\"><kbd>\xe2\x86\x90</kbd></button>\n\
<button type=\"button\" id=\"next-event\" aria-label=\"next event\"><kbd>\xe2\x86\x92</kbd> event</button>\n\
<button type=\"button\" id=\"play\">\xe2\x96\xb6 play</button>\n\
<select id=\"speed\" aria-label=\"Events a second\"><option value=\"0.5\">\xc2\xbd/s</option><option value=\"1\">1/s</option><option value=\"2\" selected>2/s</option><option value=\"4\">4/s</option><option value=\"8\">8/s</option></select>\n\
<button type=\"button\" id=\"next-mismatch\" aria-label=\"next mismatch\"><kbd>m</kbd> mismatch</button>\n\
<button type=\"button\" id=\"show-help\" aria-label=\"all keys\"><kbd>?</kbd></button>\n\
</div>\n\
<form id=\"search\" role=\"search\" hidden>\n\
<input id=\"find\" type=\"text\" placeholder=\"find /\" aria-label=\"Find\" autocomplete=\"off\" spellcheck=\"false\">\n\
<button type=\"button\" id=\"last-found\" aria-label=\"found before\"><kbd>N</kbd></button>\n\
<button type=\"button\" id=\"next-found\" aria-label=\"next found\"><kbd>n</kbd></button>\n\
<span id=\"found\" role=\"status\"></span>\n\
<select id=\"filter-node\" aria-label=\"Node\"><option value=\"0\">node</option></select>\n\
<select id=\"filter-type\" aria-label=\"Type of message\"><option value=\"\">type</option></select>\n\
<select id=\"filter-term\" aria-label=\"Term\"><option value=\"0\">term</option></select>\n\
</form>\n\
</header>\n\
<p id=\"notice\">The page is being read. If this stays, the file is cut off, or scripts may not run here.</p>\n\
<main id=\"panes\" hidden>\n\
<section id=\"script\" aria-label=\"Script\"><div id=\"directives\" role=\"listbox\" tabindex=\"0\" aria-label=\"Directives\"></div><div id=\"texts\"></div></section>\n\
<section id=\"picture\" aria-label=\"Picture\">\n\
<div id=\"heads\" aria-hidden=\"true\"></div>\n\
<div id=\"scroll\" tabindex=\"0\" role=\"group\" aria-label=\"Picture, scrolled\"><svg id=\"drawing\" class=\"drawing\" role=\"img\" aria-label=\"Nodes side by side, time downwards\" aria-describedby=\"description\"></svg><div id=\"extent\"></div></div>\n\
<div id=\"description\" class=\"unseen\"></div>\n\
<ul id=\"log-signs\" aria-label=\"Signs of logs\"></ul>\n\
<div id=\"logs\" tabindex=\"0\" role=\"group\" aria-label=\"Logs side by side\"></div>\n\
<p id=\"log-detail\" aria-hidden=\"true\"></p>\n\
<details id=\"legend\" aria-label=\"Legend\"><summary>Legend</summary><ul id=\"legend-items\"></ul></details>\n\
</section>\n\
<section id=\"state\" tabindex=\"0\" aria-label=\"What is so after the chosen event\"></section>\n\
</main>\n\
<dialog id=\"help\" aria-labelledby=\"help-title\"><h2 id=\"help-title\">Keys</h2><table id=\"help-keys\" aria-labelledby=\"help-title\"></table><button type=\"button\" id=\"help-close\">close</button></dialog>\n\
<div id=\"print\"></div>\n\
<script type=\"application/json\" id=\"steps\">";

/// From behind the rows up to the code.
#[rattlefmt::skip]
pub(crate) const BETWEEN: &[u8] = b"\
</script>\n\
<script>";

/// What stands behind the code.
#[rattlefmt::skip]
pub(crate) const END: &[u8] = b"\
</script>\n\
</body>\n\
</html>\n\
";
