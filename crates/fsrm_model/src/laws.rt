//! Laws of the definitions, and worked examples.

ghost use Rattle.std.specs.Prelude.{◌≡◌, ◌↔◌, ℕ, ◌+◌, ◌*◌, ◌<◌, ◌≤◌, ◌==◌, ◌&&◌, ◌||◌, not, nat_le, List, [], ◌∷◌, ◌++◌, ◌⊎◌, true, false, Option, Some, None, Ok, Err, if◌then◌else◌, filter, is_some, length, option_map, slice_get, sum_by, take, pos, unwrap_or};
ghost use Rattle.std.specs.List.{list_all, list_any, AllByRecursion};
ghost use Rattle.jiff_core.specs.Calendar.{days_from_civil};
ghost use Rattle.fsrm_model.specs.declared.command.Act.{Act};
ghost use Rattle.fsrm_model.specs.declared.command.Added.{Added};
ghost use Rattle.fsrm_model.specs.declared.command.Command.{Command};
ghost use Rattle.fsrm_model.specs.declared.command.Deed.{Deed};
ghost use Rattle.fsrm_model.specs.declared.command.AutoquotaDeed.TheVariants.{Add as AutoquotaAdd};
ghost use Rattle.fsrm_model.specs.declared.command.Deed.TheVariants.{File, Step, Template, Autoquota, Reports};
ghost use Rattle.fsrm_model.specs.declared.command.Entry.{Entry};
ghost use Rattle.fsrm_model.specs.declared.command.Entry.TheVariants.{Finish};
ghost use Rattle.fsrm_model.specs.declared.command.FileOp.{FileOp};
ghost use Rattle.fsrm_model.specs.declared.command.FileOp.TheVariants.{Mkdir, Move};
ghost use Rattle.fsrm_model.specs.declared.command.NewAutoquota.{NewAutoquota};
ghost use Rattle.fsrm_model.specs.declared.command.NewReport.{NewReport};
ghost use Rattle.fsrm_model.specs.declared.command.Outcome.TheVariants.{Done, Refused, Scanned, Sum};
ghost use Rattle.fsrm_model.specs.declared.command.Refusal.{Refusal};
ghost use Rattle.fsrm_model.specs.declared.command.Refusal.TheVariants.{ScreenBlocked, QuotaExceeded};
ghost use Rattle.fsrm_model.specs.declared.command.ReportsDeed.{ReportsDeed};
ghost use Rattle.fsrm_model.specs.declared.command.ReportsDeed.TheVariants.{Generate as ReportsGenerate, Run as ReportsRun};
ghost use Rattle.fsrm_model.specs.declared.command.Subject.{Subject};
ghost use Rattle.fsrm_model.specs.declared.command.Subject.TheVariants.{Quota};
ghost use Rattle.fsrm_model.specs.declared.command.TemplateChange.{TemplateChange};
ghost use Rattle.fsrm_model.specs.declared.command.TemplateDeed.TheVariants.{Modify as TemplateModify};
ghost use Rattle.fsrm_model.specs.declared.command.Update.{Update};
ghost use Rattle.fsrm_model.specs.declared.row.ActRow.{ActRow};
ghost use Rattle.fsrm_model.specs.declared.row.Action.{Action};
ghost use Rattle.fsrm_model.specs.declared.row.Capacity.{Capacity};
ghost use Rattle.fsrm_model.specs.declared.row.NodeRow.{NodeRow};
ghost use Rattle.fsrm_model.specs.declared.row.QuotaRow.{QuotaRow};
ghost use Rattle.fsrm_model.specs.declared.row.Rows.{Rows};
ghost use Rattle.fsrm_model.specs.declared.row.ScreenRow.{ScreenRow};
ghost use Rattle.fsrm_model.specs.declared.row.TemplateRow.{TemplateRow};
ghost use Rattle.fsrm_model.specs.declared.row.Threshold.{Threshold};
ghost use Rattle.fsrm_model.specs.objects.Acts.{has_act, actions_of, is_of_quota, of_screens, of_quotas, are_in_order, IsAct};
ghost use Rattle.fsrm_model.specs.objects.AutoApply.{applied, subfolders};
ghost use Rattle.fsrm_model.specs.meaning.Derives.{Matches, Reaches, Gets};
ghost use Rattle.fsrm_model.specs.objects.Templates.{is_derived, without_source, matches_template, is_reached, updated};
ghost use Rattle.fsrm_model.specs.objects.Audits.{audit_of, with_audit, tells_of_screen};
ghost use Rattle.fsrm_model.specs.values.Date.{date_of};
ghost use Rattle.fsrm_model.specs.commands.Commands.{paths, kind, emptied, entry_bytes};
ghost use Rattle.fsrm_model.specs.objects.DueActions.{minutes_of, ready, quota_acts, due, due_refused, due_screen};
ghost use Rattle.fsrm_model.specs.meaning.Exceeds.{Exceeds};
ghost use Rattle.fsrm_model.specs.meaning.Exceptions.{may_leave, run_by_refusal, left_after};
ghost use Rattle.fsrm_model.specs.nodes.FileOps.{plain, target};
ghost use Rattle.fsrm_model.specs.commands.FileWork.{judged_name, reported};
ghost use Rattle.fsrm_model.specs.nodes.Fresh.{new_rows};
ghost use Rattle.fsrm_base.specs.Keyed.{has_row, is_ascending};
ghost use Rattle.fsrm_base.specs.Numbers.{is_in};
ghost use Rattle.fsrm_model.specs.store.Lasting.{lasting};
ghost use Rattle.fsrm_model.specs.commands.Entry.{path_length};
ghost use Rattle.fsrm_model.specs.values.Limits.{latest_moment, longest_path, longest_entry, most_entries};
ghost use Rattle.fsrm_model.specs.lines.Line.{read_line, is_line_refusal};
ghost use Rattle.fsrm_model.specs.objects.Quota.{folder_of, quota_of, counts, exceeded};
ghost use Rattle.fsrm_model.specs.meaning.Raises.{are_ascending, Raises, RaisesRefused, RunsOfScreen};
ghost use Rattle.fsrm_model.specs.objects.Reached.{reached, IsReached, crossed};
ghost use Rattle.fsrm_model.specs.meaning.Receives.{Modifies, with_auto, moved_folder, Gives};
ghost use Rattle.fsrm_model.specs.meaning.RunsJob.{RunsJob};
ghost use Rattle.fsrm_model.specs.store.OldReplays.{AreOldEntries, old_replayed};
ghost use Rattle.fsrm_model.specs.objects.QuotaStates.{head};
ghost use Rattle.fsrm_model.specs.store.Replays.{finish, finish_acts, after_entry, replayed, recovered, is_scan_step, lasts, journal_entry, command_entries, entries_from, is_valid_entry, none_rebuilding, IsJournaled};
ghost use Rattle.fsrm_model.specs.objects.Runs.{run_quota, last_entries, ran};
ghost use Rattle.fsrm_model.specs.objects.Scan.{visits};
ghost use Rattle.fsrm_model.specs.lines.Script.{fold_from, is_end, lines, spelled_lines, AreLines, without_cr, replied, text, text_from};
ghost use Rattle.fsrm_model.specs.meaning.Judges.{Applies, Judges};
ghost use Rattle.fsrm_model.specs.objects.Screens.{judging};
ghost use Rattle.fsrm_model.specs.values.Space.{space};
ghost use Rattle.fsrm_model.specs.meaning.Spelling.{Spells, Skips};
ghost use Rattle.fsrm_model.specs.commands.Step.{is_accepted, step, work};
ghost use Rattle.fsrm_model.specs.texts.ActText.{act_lines};
ghost use Rattle.fsrm_model.specs.texts.Text.{reply};
ghost use Rattle.fsrm_model.specs.objects.Thresholds.{percent_of, actions_at, is_percent, is_notice, are_too_many, are_thresholds, actions_given, changed_thresholds};
ghost use Rattle.fsrm_model.specs.nodes.Tree.{number, fresh, under, usage};
ghost use Rattle.fsrm_model.specs.store.Valid.{is_tree, IsVolume, are_quotas, AreQuotas, are_tables, AreTables, is_empty, is_valid, IsValid};
ghost use Rattle.fsrm_model.specs.worked.ValidRows.{valid_rows, wrong_nodes, wrong_quotas, valid_thresholds, wrong_thresholds, valid_screens, wrong_screens, valid_templates, wrong_templates, valid_jobs, wrong_jobs, wrong_tables, wrong_queues, wrong_unvisited};
ghost use Rattle.fsrm_model.specs.store.Valued.{is_command};
ghost use Rattle.fsrm_model.specs.store.ValidScans.{is_queue, IsQueue, are_left, AreLeft};
ghost use Rattle.fsrm_model.specs.worked.WorkedThresholds.{run_limit, scan_ends_above, refused_writes, refused_below, refused_above, refused_move, acts_in_order, changed_quotas, run_limit_setting, threshold_options, threshold_values, long_lists, refused_then};
ghost use Rattle.fsrm_model.specs.commands.Work.{Judged};
ghost use Rattle.fsrm_model.specs.worked.WorkedReplays.{unfinished_scan, finished_scan, finished_action, refused_write};
ghost use Rattle.fsrm_model.specs.worked.WorkedReports.{four_reports, audit_report, job_life, report_refusals, lasting_reports, jobs_gone, report_words, report_values, long_schedules, job_rows};
ghost use Rattle.fsrm_model.specs.worked.WorkedScreens.{members_and_others, blocked_entry, exceptions, exception_above, beside_quotas, nearest_screens, screens_and_quotas, reported_entries, moves_judged, move_entries, groups_and_lists, screens_gone, screen_words, many_patterns, folded_patterns};
ghost use Rattle.fsrm_model.specs.worked.WorkedTemplates.{auto_apply, template_update, derived_quotas, matching, matching_again, runs_forgotten, update_acts, templates_gone, auto_folders, auto_moves, auto_spelled, auto_and_quotas, auto_scans, templates_and_lists, crowded_templates, template_words};
ghost use Rattle.fsrm_model.specs.worked.WorkedRows.{nothing_done, first_files, clock, moves, bad_lines, words_apart, root_and_places, few_nodes, few_name_bytes, folded_names, rounded_usage, large_clusters, small_clusters, nested_quotas, up_to_the_limit, above_the_limit, move_below_a_quota, scan_in_steps, visited_again, out_and_back, out_for_good, scan_refusals, scans_in_turn, quota_options, quota_limits, quota_peaks, quotas_gone};

/// The plain machine's text of worked scripts.
pub fn worked_rows()
    ensures nothing { nothing_done }
    ensures files { first_files }
    ensures clock { clock }
    ensures moves { moves }
    ensures bad_lines { bad_lines }
    ensures words { words_apart }
    ensures places { root_and_places }
    ensures few_nodes { few_nodes }
    ensures few_name_bytes { few_name_bytes }
    ensures folding { folded_names }
    ensures rounded_usage { rounded_usage }
    ensures large_clusters { large_clusters }
    ensures small_clusters { small_clusters }
    ensures nested_quotas { nested_quotas }
    ensures up_to_the_limit { up_to_the_limit }
    ensures above_the_limit { above_the_limit }
    ensures move_below_a_quota { move_below_a_quota }
    ensures scan_in_steps { scan_in_steps }
    ensures visited_again { visited_again }
    ensures out_and_back { out_and_back }
    ensures out_for_good { out_for_good }
    ensures scan_refusals { scan_refusals }
    ensures scans_in_turn { scans_in_turn }
    ensures quota_options { quota_options }
    ensures quota_limits { quota_limits }
    ensures quota_peaks { quota_peaks }
    ensures quotas_gone { quotas_gone }
{}

/// The plain machine's text of worked scripts, of thresholds and the actions that run.
pub fn worked_thresholds()
    ensures run_limit { run_limit }
    ensures scan_ends_above { scan_ends_above }
    ensures refused_writes { refused_writes }
    ensures refused_below { refused_below }
    ensures refused_above { refused_above }
    ensures refused_move { refused_move }
    ensures acts_in_order { acts_in_order }
    ensures changed_quotas { changed_quotas }
    ensures run_limit_setting { run_limit_setting }
    ensures threshold_options { threshold_options }
    ensures threshold_values { threshold_values }
    ensures long_lists { long_lists }
    ensures refused_then { refused_then }
{}

/// The plain machine's text of worked scripts, and the audit log, of file groups, screens and exceptions.
pub fn worked_screens()
    ensures members { members_and_others }
    ensures blocked_entry { blocked_entry }
    ensures exceptions { exceptions }
    ensures exception_above { exception_above }
    ensures beside_quotas { beside_quotas }
    ensures nearest { nearest_screens }
    ensures and_quotas { screens_and_quotas }
    ensures reported_entries { reported_entries }
    ensures moves { moves_judged }
    ensures move_entries { move_entries }
    ensures lists { groups_and_lists }
    ensures gone { screens_gone }
    ensures words { screen_words }
    ensures many_patterns { many_patterns }
    ensures folding { folded_patterns }
{}

/// The plain machine's text of worked scripts of templates and auto-apply quotas.
pub fn worked_templates()
    ensures auto_apply { auto_apply }
    ensures update { template_update }
    ensures derived { derived_quotas }
    ensures matching { matching }
    ensures matching_again { matching_again }
    ensures runs { runs_forgotten }
    ensures acts { update_acts }
    ensures gone { templates_gone }
    ensures folders { auto_folders }
    ensures moves { auto_moves }
    ensures spelled { auto_spelled }
    ensures and_quotas { auto_and_quotas }
    ensures scans { auto_scans }
    ensures lists { templates_and_lists }
    ensures crowded { crowded_templates }
    ensures words { template_words }
{}

/// The plain machine's text of worked scripts, and the rows of jobs, of reports and report jobs.
pub fn worked_reports()
    ensures reports { four_reports }
    ensures audit { audit_report }
    ensures life { job_life }
    ensures refusals { report_refusals }
    ensures lasting { lasting_reports }
    ensures gone { jobs_gone }
    ensures words { report_words }
    ensures values { report_values }
    ensures schedules { long_schedules }
    ensures rows { job_rows }
{}

/// The plain machine's text of worked scripts over what is recovered.
pub fn worked_replays()
    ensures unfinished { unfinished_scan }
    ensures finished { finished_scan }
    ensures action { finished_action }
    ensures refused { refused_write }
{}

/// Which screen judges a name that a file is given in a folder, which one blocks or reports it, what that leaves in the
/// audit log, and which actions run then.
pub fn screens()
    // It is one that applies; an active one if any active one applies; and no other such one is nearer.
    ensures judges { (K : Capacity) (R : Rows) (folder : ℕ) (name : List ℕ) (screen : ScreenRow) → IsValid K R → judging R folder name ≡ Some screen → Judges R folder name screen }
    ensures none { (K : Capacity) (R : Rows) (folder : ℕ) (name : List ℕ) → IsValid K R → judging R folder name ≡ None → (screen : ScreenRow) → Applies R folder name screen → ⊥ }
    // Only a file operation is refused by a screen, and only by an active one that judges the name it gives a file.
    ensures blocks { (K : Capacity) (R : Rows) (c : Command) (folder : ℕ) → (step K R c).outcome ≡ Refused (ScreenBlocked folder) → (op : FileOp) × (judged : Judged) × (c.deed ≡ File op) × (judged_name R op ≡ Some judged) × (judged.screen.active ≡ true) × (judged.screen.folder ≡ folder) }
    // Only a file operation is reported, and only by a passive screen that judges the name.
    ensures reports { (K : Capacity) (R : Rows) (c : Command) (folder : ℕ) → (step K R c).outcome ≡ Done (Some folder) → (op : FileOp) × (judged : Judged) × (c.deed ≡ File op) × (judged_name R op ≡ Some judged) × (judged.screen.active ≡ false) × (judged.screen.folder ≡ folder) }
    // An accepted file operation tells of exactly the screen that judges the name it gives. So no name passes an active
    // one, and none that a passive one judges goes unreported.
    ensures told { (K : Capacity) (R : Rows) (c : Command) (op : FileOp) (passive : Option ℕ) → c.deed ≡ File op → (step K R c).outcome ≡ Done passive → passive ≡ reported (judged_name R op) }
    // Either leaves an entry of the name, and no other command does.
    ensures noted { (K : Capacity) (R : Rows) (c : Command) (judged : Judged) → (work K R c.moment c.deed).judged ≡ Some judged → tells_of_screen (step K R c).outcome ≡ true → (step K R c).rows.audits ≡ with_audit (audit_of c.moment judged) R.audits }
    ensures unnoted { (K : Capacity) (R : Rows) (c : Command) → tells_of_screen (step K R c).outcome ≡ false → (step K R c).rows.audits ≡ R.audits }
    // Either has exactly those actions of its screen run that may, and no other command has a screen's actions run.
    ensures runs { (K : Capacity) (R : Rows) (c : Command) (judged : Judged) → (work K R c.moment c.deed).judged ≡ Some judged → tells_of_screen (step K R c).outcome ≡ true → of_screens (step K R c).acts ≡ due_screen R.run_limit c.moment judged.screen }
    ensures unrun { (K : Capacity) (R : Rows) (c : Command) → tells_of_screen (step K R c).outcome ≡ false → of_screens (step K R c).acts ≡ [] }
{}

/// Which quotas match a template, what its change makes of those that it reaches, and which folders get a quota of the
/// folder that they stand in.
pub fn templates()
    // A quota matches that has the template's limit, type and thresholds, whenever actions ran.
    ensures matches { (template : TemplateRow) (quota : QuotaRow) → (matches_template template quota ≡ true) ↔ Matches template quota }
    // A change reaches no quota, the template's own that match it as it was, or all its own, as the command asks for. They
    // match it from then on, and each other quota stays as it was.
    ensures reached { (mode : Update) (old : TemplateRow) (quota : QuotaRow) → (is_reached mode old quota ≡ true) ↔ Reaches mode old quota }
    ensures updated { (mode : Update) (old new : TemplateRow) (quota : QuotaRow) → is_reached mode old quota ≡ true → Matches new (updated mode old new quota) }
    ensures spared { (mode : Update) (old new : TemplateRow) (quota : QuotaRow) → is_reached mode old quota ≡ false → updated mode old new quota ≡ quota }
    // That is what an accepted change of a template does to the quotas, but for raised peaks and the actions that run.
    ensures modified { (K : Capacity) (R : Rows) (c : Command) (change : TemplateChange) → c.deed ≡ Template (TemplateModify change) → is_accepted (step K R c).outcome ≡ true → Modifies K R c change }
    // Once a template is gone no quota is derived from it.
    ensures gone { (number : ℕ) (quota : QuotaRow) → is_derived number (without_source number quota) ≡ false }
    // A folder gets a quota exactly if an auto-apply quota on the folder that it stands in gives it one.
    ensures gets { (R : Rows) (moment folder : ℕ) (quota : QuotaRow) → (applied R moment folder ≡ Some quota) ↔ Gets R moment folder quota }
    // An accepted `mkdir` gives the new folder its quota, a move the folder that moves, and a new auto-apply quota each
    // folder in its own. No other folder gets one, and no quota goes.
    ensures made { (K : Capacity) (R : Rows) (c : Command) (path : List (List ℕ)) (owner : ℕ) → c.deed ≡ File (Mkdir path owner) → is_accepted (step K R c).outcome ≡ true → Gives K R (record R { nodes = plain R.nodes (Mkdir path owner) c.moment }) c (fresh R.nodes ∷ []) }
    ensures moved { (K : Capacity) (R : Rows) (c : Command) (from to : List (List ℕ)) → c.deed ≡ File (Move from to) → is_accepted (step K R c).outcome ≡ true → Gives K R (record R { nodes = plain R.nodes (Move from to) c.moment }) c (moved_folder R.nodes from) }
    ensures added { (K : Capacity) (R : Rows) (c : Command) (new : NewAutoquota) → IsValid K R → c.deed ≡ Autoquota (AutoquotaAdd new) → is_accepted (step K R c).outcome ≡ true → Gives K R (with_auto R new) c (subfolders R.nodes (target R.nodes new.path)) }
{}

/// What the commands on reports and report jobs do.
pub fn reports()
    // An accepted run makes the report of the job of that name. The job's last run is the command's moment from then on,
    // and each other job stays as it was.
    ensures ran { (K : Capacity) (R : Rows) (c : Command) (name : List ℕ) → IsValid K R → c.deed ≡ Reports (ReportsRun name) → is_accepted (step K R c).outcome ≡ true → RunsJob K R c name }
    // A report that is made once changes nothing, and no such command does that is refused.
    ensures once { (K : Capacity) (R : Rows) (c : Command) (new : NewReport) → c.deed ≡ Reports (ReportsGenerate new) → (step K R c).rows ≡ R }
    ensures refused { (K : Capacity) (R : Rows) (c : Command) (deed : ReportsDeed) (refusal : Refusal) → IsValid K R → c.deed ≡ Reports deed → (step K R c).outcome ≡ Refused refusal → (step K R c).rows ≡ R }
{}

/// What a line is read as is what it spells, and a line that spells a command is read as it. The command is valid.
/// Exactly those lines are skipped that have nothing but blanks, or whose first byte that is no blank is a `#`. Each
/// other line is refused, by a refusal that comes from reading alone.
pub fn spelling()
    ensures commands { (line : List ℕ) (c : Command) → (read_line line ≡ Some (Ok c)) ↔ Spells line c }
    ensures valid { (line : List ℕ) (c : Command) → Spells line c → is_command c ≡ true }
    ensures skipped { (line : List ℕ) → (read_line line ≡ None) ↔ Skips line }
    ensures refusals { (line : List ℕ) (refusal : Refusal) → read_line line ≡ Some (Err refusal) → is_line_refusal refusal ≡ true }
{}

/// The lines of a script are what stands before each LF, and what is left after the last one if that isn't empty.
pub fn script_lines()
    ensures ended { (ended : List (List ℕ)) → AreLines ended → lines (spelled_lines ended) ≡ ended }
    ensures last { (ended : List (List ℕ)) (byte : ℕ) (rest : List ℕ) → AreLines ended → list_any is_end (byte ∷ rest) ≡ false → lines (spelled_lines ended ++ byte ∷ rest) ≡ ended ++ (byte ∷ rest) ∷ [] }
{}

/// A script's text is the replies to its lines, numbered from 1, each over the rows that the lines
/// before it leave; and what each line does to the rows, and is replied.
pub fn plain_machine()
    ensures text { (K : Capacity) (R : Rows) (script : List ℕ) → text K R script ≡ text_from K R 1 (lines script) }
    ensures no_line { (K : Capacity) (R : Rows) (n : ℕ) → text_from K R n [] ≡ [] }
    ensures next_line { (K : Capacity) (R : Rows) (n : ℕ) (line : List ℕ) (more : List (List ℕ)) → text_from K R n (line ∷ more) ≡ (replied K R n line).text ++ text_from K (replied K R n line).rows (n + 1) more }
    // A line is read without the CR that may end it. One that spells a command takes that command's step.
    ensures spelled_rows { (K : Capacity) (R : Rows) (n : ℕ) (line : List ℕ) (c : Command) → Spells (without_cr line) c → (replied K R n line).rows ≡ (step K R c).rows }
    ensures spelled_text { (K : Capacity) (R : Rows) (n : ℕ) (line : List ℕ) (c : Command) → Spells (without_cr line) c → (replied K R n line).text ≡ reply K (step K R c).rows c.moment n (step K R c).outcome ++ act_lines (step K R c).rows (step K R c).acts }
    // A line that is skipped changes nothing and has no reply.
    ensures skipped_rows { (K : Capacity) (R : Rows) (n : ℕ) (line : List ℕ) → Skips (without_cr line) → (replied K R n line).rows ≡ R }
    ensures skipped_text { (K : Capacity) (R : Rows) (n : ℕ) (line : List ℕ) → Skips (without_cr line) → (replied K R n line).text ≡ [] }
    // A line that is refused as it is read changes nothing.
    ensures unread_rows { (K : Capacity) (R : Rows) (n : ℕ) (line : List ℕ) (refusal : Refusal) → read_line (without_cr line) ≡ Some (Err refusal) → (replied K R n line).rows ≡ R }
    ensures unread_text { (K : Capacity) (R : Rows) (n : ℕ) (line : List ℕ) (refusal : Refusal) → read_line (without_cr line) ≡ Some (Err refusal) → (replied K R n line).text ≡ reply K R 0 n (Refused refusal) }
    // A command that is refused changes nothing, unless a screen blocks a name, or a quota refuses it and actions are
    // due.
    ensures refused { (K : Capacity) (R : Rows) (c : Command) (refusal : Refusal) → (step K R c).outcome ≡ Refused refusal → ((step K R c).rows ≡ R) ⊎ (may_leave K R c.moment (work K R c.moment c.deed) refusal ≡ true) }
    // Then these have run, and nothing else is left but their entries, that of the blocked name, the moment, and peaks
    // that were too low.
    ensures left { (K : Capacity) (R : Rows) (c : Command) (refusal : Refusal) → (step K R c).outcome ≡ Refused refusal → (step K R c).rows ≡ left_after K R c.moment (work K R c.moment c.deed) refusal }
    // They are its acts, and it lasts exactly if it leaves something.
    ensures runs { (K : Capacity) (R : Rows) (c : Command) (refusal : Refusal) → (step K R c).outcome ≡ Refused refusal → ((step K R c).acts ≡ run_by_refusal K R c.moment (work K R c.moment c.deed) refusal) × ((step K R c).lasting ≡ may_leave K R c.moment (work K R c.moment c.deed) refusal) }
    // A sum is made afresh from the tree: the space of the node itself, if it is a file, or of all files below it.
    ensures sum { (K : Capacity) (R : Rows) (c : Command) (node bytes : ℕ) → (step K R c).outcome ≡ Sum node bytes → bytes ≡ sum_by (space K) (under R.nodes node) }
{}

/// Which quota refuses, that limits are kept, and what peaks are.
pub fn quotas()
    // The refusal for a quota names the deepest folder whose quota counts and is enforced, and whose usage would
    // rise, and above the limit.
    ensures exceeds { (K : Capacity) (R : Rows) (nodes : List NodeRow) (folder would limit : ℕ) → IsValid K R → exceeded K R nodes ≡ Some (QuotaExceeded folder would limit) → Exceeds K R nodes folder would limit }
    // Only a file operation is refused for a quota, and only for what it would make of the nodes.
    ensures refuses { (K : Capacity) (R : Rows) (c : Command) (folder would limit : ℕ) → IsValid K R → (step K R c).outcome ≡ Refused (QuotaExceeded folder would limit) → (op : FileOp) × (c.deed ≡ File op) × Exceeds K R (plain R.nodes op c.moment) folder would limit }
    // No command lets the usage of a folder whose quota counts and is enforced rise above the limit. What is above
    // it already may stay, and fall.
    ensures limits { (K : Capacity) (R : Rows) (c : Command) (folder : ℕ) (quota : QuotaRow) → IsValid K R → quota_of R folder ≡ Some quota → counts quota ≡ true → quota.enforce ≡ true → usage K R.nodes folder < usage K (step K R c).rows.nodes folder → usage K (step K R c).rows.nodes folder ≤ quota.limit }
    // A command that lasts leaves no counting quota whose peak is below its usage.
    ensures peaks { (K : Capacity) (R : Rows) (c : Command) (folder : ℕ) (quota : QuotaRow) → (step K R c).lasting ≡ true → quota_of (step K R c).rows folder ≡ Some quota → counts quota ≡ true → usage K (step K R c).rows.nodes folder ≤ quota.peak }
{}

/// What a command makes of the thresholds of a quota. It removes percentages, adds some, and gives some an action each.
pub fn thresholds()
    ensures ascending { (removed percents : List ℕ) (notices : List Added) (thresholds : List Threshold) → is_ascending percent_of thresholds ≡ true → is_ascending percent_of (changed_thresholds removed percents notices thresholds) ≡ true }
    // A percentage is there that was given an action or was added, or that was there and wasn't removed.
    ensures there { (removed percents : List ℕ) (notices : List Added) (thresholds : List Threshold) (percent : ℕ) → has_row percent_of percent (changed_thresholds removed percents notices thresholds) ≡ (list_any (λ notice. notice.percent == percent) notices || (is_in percents percent || (not (is_in removed percent) && has_row percent_of percent thresholds))) }
    // If it wasn't removed it keeps its actions with their last runs. Those that it was given come after them.
    ensures actions { (removed percents : List ℕ) (notices : List Added) (thresholds : List Threshold) (percent : ℕ) → actions_at (changed_thresholds removed percents notices thresholds) percent ≡ (if is_in removed percent then [] else actions_at thresholds percent) ++ actions_given notices percent }
    // They are those of a quota if they aren't too many.
    ensures kept { (removed percents : List ℕ) (notices : List Added) (thresholds : List Threshold) → are_thresholds thresholds ≡ true → list_all is_percent percents ≡ true → list_all is_notice notices ≡ true → are_too_many (changed_thresholds removed percents notices thresholds) ≡ false → are_thresholds (changed_thresholds removed percents notices thresholds) ≡ true }
{}

/// Which actions are due: of a command that leaves other rows, of an operation that a quota refuses, and of a screen
/// that judges a name.
pub fn due_actions()
    ensures reached { (K : Capacity) (R : Rows) (folder percent : ℕ) → (reached K R folder percent ≡ true) ↔ IsReached K R folder percent }
    ensures due { (K : Capacity) (before after : Rows) (moment folder percent place : ℕ) → are_ascending after.quotas ≡ true → (has_act (due K before after moment) (Quota folder percent) place ≡ true) ↔ Raises K before after moment folder percent place }
    ensures refused { (K : Capacity) (R : Rows) (nodes : List NodeRow) (moment folder percent place : ℕ) → are_ascending R.quotas ≡ true → (has_act (due_refused K R nodes moment) (Quota folder percent) place ≡ true) ↔ RaisesRefused K R nodes moment folder percent place }
    ensures screen { (run_limit moment : ℕ) (screen : ScreenRow) (subject : Subject) (place : ℕ) → (has_act (due_screen run_limit moment screen) subject place ≡ true) ↔ RunsOfScreen run_limit moment screen subject place }
    // They stand in the order of folders, percentages and places, each once.
    ensures order { (K : Capacity) (before after : Rows) (moment : ℕ) → are_ascending after.quotas ≡ true → are_in_order (due K before after moment) ≡ true }
    ensures refused_order { (K : Capacity) (R : Rows) (nodes : List NodeRow) (moment : ℕ) → are_ascending R.quotas ≡ true → are_in_order (due_refused K R nodes moment) ≡ true }
    // Each names an action that is there, and its kind.
    ensures there { (K : Capacity) (before after : Rows) (moment : ℕ) → are_ascending after.quotas ≡ true → AllByRecursion (IsAct after) (due K before after moment) }
    ensures refused_there { (K : Capacity) (R : Rows) (nodes : List NodeRow) (moment : ℕ) → are_ascending R.quotas ≡ true → AllByRecursion (IsAct R) (due_refused K R nodes moment) }
    // An accepted command that lasts has exactly those actions of quotas run that are due of the rows before it and those
    // that its effect leaves. What is reached in these is reached in the rows after it, so an act's threshold is crossed.
    ensures accepted { (K : Capacity) (R : Rows) (c : Command) → is_accepted (step K R c).outcome ≡ true → (step K R c).lasting ≡ true → of_quotas (step K R c).acts ≡ due K R (work K R c.moment c.deed).effect c.moment }
    ensures after { (K : Capacity) (R : Rows) (c : Command) (folder percent : ℕ) → is_accepted (step K R c).outcome ≡ true → (step K R c).lasting ≡ true → reached K (step K R c).rows folder percent ≡ reached K (work K R c.moment c.deed).effect folder percent }
    // A command that doesn't last has none run.
    ensures passing { (K : Capacity) (R : Rows) (c : Command) → (step K R c).lasting ≡ false → (step K R c).acts ≡ [] }
    // None is due if no threshold is crossed, as when the rows stay.
    ensures none { (K : Capacity) (before after : Rows) (moment : ℕ) → ((folder percent : ℕ) → crossed K before after folder percent ≡ false) → due K before after moment ≡ [] }
    ensures same { (K : Capacity) (R : Rows) (moment : ℕ) → due K R R moment ≡ [] }
{}

/// The acts of a command: first those of the screen that judges a name, in the order of their places, and then those of
/// quotas in the order of folders, percentages and places, each once. Each act names an action that is there in the
/// rows after it.
pub fn acts()
    ensures first { (K : Capacity) (R : Rows) (c : Command) → IsValid K R → is_command c ≡ true → (step K R c).acts ≡ of_screens (step K R c).acts ++ of_quotas (step K R c).acts }
    ensures places { (K : Capacity) (R : Rows) (c : Command) → IsValid K R → is_command c ≡ true → are_in_order (of_screens (step K R c).acts) ≡ true }
    ensures order { (K : Capacity) (R : Rows) (c : Command) → IsValid K R → is_command c ≡ true → are_in_order (filter (λ act. is_of_quota act.subject) (step K R c).acts) ≡ true }
    ensures there { (K : Capacity) (R : Rows) (c : Command) → IsValid K R → is_command c ≡ true → AllByRecursion (IsAct (step K R c).rows) (step K R c).acts }
{}

/// What is left when actions ran at a moment.
pub fn runs()
    // Each keeps its place, and has the moment as its last run exactly if it is among those that ran.
    ensures actions { (moment : ℕ) (acts : List Act) (R : Rows) (subject : Subject) (place : ℕ) → slice_get (actions_of (ran moment acts R) subject) place ≡ option_map (λ action. if has_act acts subject place then record action { last_run = Some moment } else action) (slice_get (actions_of R subject) place) }
    // Of all acts that are due only its own matter to a quota.
    ensures own { (K : Capacity) (before after : Rows) (moment : ℕ) (quota : QuotaRow) → are_ascending after.quotas ≡ true → is_ascending percent_of quota.thresholds ≡ true → quota_of after quota.folder ≡ Some quota → run_quota moment (due K before after moment) quota ≡ run_quota moment (quota_acts (crossed K before after quota.folder) after.run_limit moment quota) quota }
    // An action may run again once its minutes are over, and no sooner.
    ensures again { (run_limit moment later : ℕ) (action : Action) → ready run_limit later (record action { last_run = Some moment }) ≡ nat_le (moment + 60 * minutes_of run_limit action.minutes) later }
    // What is reached stays reached.
    ensures reached { (K : Capacity) (moment : ℕ) (acts : List Act) (R : Rows) (folder percent : ℕ) → reached K (ran moment acts R) folder percent ≡ reached K R folder percent }
    // The log has 1,024 entries at most. While there is room it loses none.
    ensures few { (moment : ℕ) (acts : List Act) (R : Rows) → length (ran moment acts R).acts ≤ most_entries }
    ensures short { (log : List ActRow) → length log ≤ most_entries → last_entries log ≡ log }
    ensures none { (moment : ℕ) (R : Rows) → length R.acts ≤ most_entries → ran moment [] R ≡ R }
{}

/// Which rows are those of a store, as a test and part by part; and that they stay such.
pub fn valid()
    ensures whole { (K : Capacity) (R : Rows) → (is_valid K R ≡ true) ↔ IsValid K R }
    ensures nodes { (K : Capacity) (nodes : List NodeRow) → (is_tree K nodes ≡ true) ↔ IsVolume K nodes }
    ensures quotas { (nodes : List NodeRow) (quotas : List QuotaRow) → (are_quotas nodes quotas ≡ true) ↔ AreQuotas nodes quotas }
    ensures tables { (R : Rows) → (are_tables R ≡ true) ↔ AreTables R }
    ensures queue { (quotas : List QuotaRow) (queue : List ℕ) → is_ascending folder_of quotas ≡ true → (is_queue quotas queue ≡ true) ↔ IsQueue quotas queue }
    ensures unvisited { (nodes : List NodeRow) (scanned : Option ℕ) (unvisited : List ℕ) → is_ascending number nodes ≡ true → (are_left nodes scanned unvisited ≡ true) ↔ AreLeft nodes scanned unvisited }
    // The rows of a new store are valid.
    ensures new { (K : Capacity) → 0 < K.nodes → IsValid K new_rows }
    // A command whose values are in their ranges leaves valid rows, whatever it answers.
    ensures kept { (K : Capacity) (R : Rows) (c : Command) → IsValid K R → is_command c ≡ true → IsValid K (step K R c).rows }
{}

/// Which commands last, and that from what a store kept of its rows and the entries of the commands since then its rows
/// are recovered, as far as they are kept.
pub fn journal()
    // What is kept of rows is itself kept as it is. It is valid if they are.
    ensures twice { (R : Rows) → lasting (lasting R) ≡ lasting R }
    ensures valid { (K : Capacity) (R : Rows) → IsValid K R → IsValid K (lasting R) }
    // Valid rows are kept as they are exactly if no quota is rebuilding.
    ensures whole { (K : Capacity) (R : Rows) → IsValid K R → (none_rebuilding R.quotas ≡ true) ↔ (lasting R ≡ R) }
    // Which commands last. Each of them has a kind of entry, unless it is a step of a scan.
    ensures lasts { (K : Capacity) (R : Rows) (c : Command) → (step K R c).lasting ≡ lasts K R c }
    ensures kinds { (K : Capacity) (R : Rows) (c : Command) → IsValid K R → is_scan_step c.deed ≡ false → (step K R c).lasting ≡ true → is_some (kind c.deed) ≡ true }
    // What is kept of rows stays the same after a command that doesn't last.
    ensures passing { (K : Capacity) (R : Rows) (c : Command) → IsValid K R → (step K R c).lasting ≡ false → lasting (step K R c).rows ≡ lasting R }
    // If the same is kept of two rows, the same is kept of what a command leaves of either. It answers the same, lasts
    // with both or with neither, and has the same actions run. Only a step of a scan doesn't: what is visited isn't kept.
    ensures same_rows { (K : Capacity) (R Q : Rows) (c : Command) → is_scan_step c.deed ≡ false → lasting Q ≡ lasting R → lasting (step K Q c).rows ≡ lasting (step K R c).rows }
    ensures same_answer { (K : Capacity) (R Q : Rows) (c : Command) → is_scan_step c.deed ≡ false → lasting Q ≡ lasting R → ((step K Q c).lasting ≡ (step K R c).lasting) × ((step K Q c).outcome ≡ (step K R c).outcome) × ((step K Q c).acts ≡ (step K R c).acts) }
    // The same is kept of what a finish leaves of either, too, and it has the same actions run. It leaves valid rows.
    ensures same_finish { (K : Capacity) (R Q : Rows) (moment folder : ℕ) → lasting Q ≡ lasting R → lasting (finish K Q moment folder) ≡ lasting (finish K R moment folder) }
    ensures same_finish_acts { (K : Capacity) (R Q : Rows) (moment folder : ℕ) → lasting Q ≡ lasting R → finish_acts K Q moment folder ≡ finish_acts K R moment folder }
    ensures valid_finish { (K : Capacity) (R : Rows) (moment folder : ℕ) → IsValid K R → moment ≤ latest_moment → IsValid K (finish K R moment folder) }
    // A step that finishes a scan is its visits, and then a finish of the folder at the head of the queue. So that
    // finish alone does the same, as far as it is kept, and has the same actions run.
    ensures visits { (K : Capacity) (R : Rows) (moment n : ℕ) → IsValid K R → (step K R (record { moment = moment; deed = Step n })).lasting ≡ true → (step K R (record { moment = moment; deed = Step n })).rows ≡ finish K (record R { unvisited = visits n R.nodes R.unvisited }) moment (unwrap_or (head R.queue) 0) }
    ensures finishes { (K : Capacity) (R Q : Rows) (moment n : ℕ) → IsValid K R → lasting Q ≡ lasting R → (step K R (record { moment = moment; deed = Step n })).lasting ≡ true → lasting (finish K Q moment (unwrap_or (head R.queue) 0)) ≡ lasting (step K R (record { moment = moment; deed = Step n })).rows }
    ensures finish_acts { (K : Capacity) (R Q : Rows) (moment n : ℕ) → IsValid K R → lasting Q ≡ lasting R → (step K R (record { moment = moment; deed = Step n })).lasting ≡ true → finish_acts K Q moment (unwrap_or (head R.queue) 0) ≡ (step K R (record { moment = moment; deed = Step n })).acts }
    // The entry of a command that lasts does what the command did, as far as it is kept. It is valid if the command is,
    // and valid entries leave valid rows.
    ensures entry { (K : Capacity) (R Q : Rows) (c : Command) → IsValid K R → lasting Q ≡ lasting R → (step K R c).lasting ≡ true → lasting (after_entry K Q (journal_entry R c)) ≡ lasting (step K R c).rows }
    ensures valid_entry { (R : Rows) (c : Command) → is_command c ≡ true → is_valid_entry (journal_entry R c) ≡ true }
    ensures valid_rows { (K : Capacity) (R : Rows) (entry : Entry) → IsValid K R → is_valid_entry entry ≡ true → IsValid K (after_entry K R entry) }
    // The entry of a step names the folder that its answer names.
    ensures named { (K : Capacity) (R : Rows) (moment n folder visited : ℕ) (used : Option ℕ) → (step K R (record { moment = moment; deed = Step n })).outcome ≡ Scanned folder visited used → journal_entry R (record { moment = moment; deed = Step n }) ≡ Finish moment folder }
    // Rows are journaled when a store writes what is kept of them, when it has recovered them, and after each command
    // and each script's lines, by the entries of these.
    ensures new { (K : Capacity) (R : Rows) → IsValid K R → IsJournaled K (lasting R) [] R }
    ensures again { (K : Capacity) (base : Rows) (entries : List Entry) → IsValid K base → list_all is_valid_entry entries ≡ true → IsJournaled K base entries (recovered K base entries) }
    ensures next { (K : Capacity) (base : Rows) (entries : List Entry) (R : Rows) (c : Command) → IsJournaled K base entries R → is_command c ≡ true → IsJournaled K base (entries ++ command_entries K R c) (step K R c).rows }
    ensures lines { (K : Capacity) (base : Rows) (entries : List Entry) (R : Rows) (n : ℕ) (lines : List (List ℕ)) → IsJournaled K base entries R → IsJournaled K base (entries ++ entries_from K R n lines) (fold_from K R n lines) }
    // A front of the entries of lines is all entries of a front of the lines. So what is recovered by it is what is kept
    // of the rows after these.
    ensures fronts { (K : Capacity) (R : Rows) (n : ℕ) (lines : List (List ℕ)) (place : ℕ) → (j : ℕ) × (take place (entries_from K R n lines) ≡ entries_from K R n (take j lines)) }
    // Entries of commands that lasted before a refusal for a quota had actions run come to the same.
    ensures old { (K : Capacity) (R : Rows) (entries : List Entry) → AreOldEntries K R entries → old_replayed K R entries ≡ replayed K R entries }
{}

/// In a journal the kind of an entry tells the command. Two deeds whose entries have the same kind are of the same
/// command: they are the same but for their values. Each valid command's entry can be spelled.
pub fn entries()
    ensures kinds { (one other : Deed) (k : ℕ) → kind one ≡ Some k → kind other ≡ Some k → emptied one ≡ emptied other }
    // Two bytes tell the length of each path's text in it, and a record holds it.
    ensures paths { (c : Command) (n : ℕ) → is_command c ≡ true → entry_bytes c.deed ≡ Some n → AllByRecursion (λ path. path_length path ≤ longest_path) (paths c.deed) }
    ensures bytes { (c : Command) (n : ℕ) → is_command c ≡ true → entry_bytes c.deed ≡ Some n → n ≤ longest_entry }
{}

/// Rows that are those of a store, and rows in which one thing is wrong.
pub fn valid_rows()
    ensures valid { valid_rows }
    ensures nodes { wrong_nodes }
    ensures quotas { wrong_quotas }
    ensures thresholds { valid_thresholds }
    ensures wrong_thresholds { wrong_thresholds }
    ensures screens { valid_screens }
    ensures wrong_screens { wrong_screens }
    ensures templates { valid_templates }
    ensures wrong_templates { wrong_templates }
    ensures jobs { valid_jobs }
    ensures wrong_jobs { wrong_jobs }
    ensures tables { wrong_tables }
    ensures queues { wrong_queues }
    ensures unvisited { wrong_unvisited }
{}

/// The civil date of a moment is that of jiff's calendar.
pub fn dates()
    ensures dates { (day : ℕ) → day ≤ 47481 → days_from_civil (pos (date_of day).year) (date_of day).month (date_of day).day ≡ pos day }
{}
