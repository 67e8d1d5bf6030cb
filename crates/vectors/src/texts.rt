//! The modules of the worked rows.

/// A kernel that stores 7.
pub(crate) const STORE_SEVEN: &str = "define void @k(ptr %p) {
entry:
  %i = call i32 @__kmpc_target_init(ptr null, i8 1, i1 true)
  %m = icmp eq i32 %i, -1
  br i1 %m, label %user, label %exit
user:
  store i32 7, ptr %p
  call void @__kmpc_target_deinit(ptr null, i8 1)
  ret void
exit:
  ret void
}
declare i32 @__kmpc_target_init(ptr, i8, i1)
declare void @__kmpc_target_deinit(ptr, i8)
";

/// What stands before its line 7.
pub(crate) const BEFORE_SEVEN: &str = "define void @k(ptr %p) {
entry:
  %i = call i32 @__kmpc_target_init(ptr null, i8 1, i1 true)
  %m = icmp eq i32 %i, -1
  br i1 %m, label %user, label %exit
user:
";

/// What stands behind its line 7.
pub(crate) const BEHIND_SEVEN: &str = "
  call void @__kmpc_target_deinit(ptr null, i8 1)
  ret void
exit:
  ret void
}
declare i32 @__kmpc_target_init(ptr, i8, i1)
declare void @__kmpc_target_deinit(ptr, i8)
";

/// A kernel with a region, as a front end writes it.
pub(crate) const REGION: &str = "source_filename = \"a.c\"
target triple = \"nvptx64-nvidia-cuda\"
%struct.ident_t = type { i32, i32, i32, i32, ptr }
@0 = private unnamed_addr constant [23 x i8] c\";unknown;unknown;0;0;;\\00\", align 1
@1 = private unnamed_addr constant %struct.ident_t { i32 0, i32 2, i32 0, i32 22, ptr @0 }, align 8
@k_exec_mode = weak protected constant i8 1
@llvm.compiler.used = appending global [1 x ptr] [ptr @k_exec_mode], section \"llvm.metadata\"

; Function Attrs: convergent noinline
define weak_odr protected void @k(ptr noundef nonnull align 4 dereferenceable(16) %a) #0 {
entry:
  %a.addr = alloca ptr, align 8
  %captured_vars_addrs = alloca [1 x ptr], align 8
  store ptr %a, ptr %a.addr, align 8
  %0 = load ptr, ptr %a.addr, align 8
  %1 = call i32 @__kmpc_target_init(ptr @1, i8 1, i1 true)
  %exec_user_code = icmp eq i32 %1, -1
  br i1 %exec_user_code, label %user_code.entry, label %worker.exit

user_code.entry:       ; preds = %entry
  %2 = call i32 @__kmpc_global_thread_num(ptr @1)
  %3 = getelementptr inbounds [1 x ptr], ptr %captured_vars_addrs, i64 0, i64 0
  store ptr %0, ptr %3, align 8
  call void @__kmpc_parallel_51(ptr @1, i32 %2, i32 1, i32 -1, i32 -1, ptr @f, ptr @f_wrapper, ptr %captured_vars_addrs, i64 1)
  call void @__kmpc_target_deinit(ptr @1, i8 1)
  ret void

worker.exit:           ; preds = %entry
  ret void
}

define internal void @f(ptr noalias noundef %.global_tid., ptr noalias noundef %.bound_tid., ptr noundef nonnull align 4 %a) #0 {
entry:
  %.global_tid..addr = alloca ptr, align 8
  store ptr %.global_tid., ptr %.global_tid..addr, align 8
  %call = call i32 @omp_get_thread_num() #0
  %idxprom = sext i32 %call to i64
  %arrayidx = getelementptr inbounds [4 x i32], ptr %a, i64 0, i64 %idxprom
  store i32 %call, ptr %arrayidx, align 4
  ret void
}

define internal void @f_wrapper(i16 noundef zeroext %0, i32 noundef %1) #0 {
entry:
  %.addr = alloca i16, align 2
  %.addr1 = alloca i32, align 4
  %.zero.addr = alloca i32, align 4
  %global_args = alloca ptr, align 8
  store i32 0, ptr %.zero.addr, align 4
  store i16 %0, ptr %.addr, align 2
  store i32 %1, ptr %.addr1, align 4
  call void @__kmpc_get_shared_variables(ptr %global_args)
  %2 = load ptr, ptr %global_args, align 8
  %3 = getelementptr inbounds ptr, ptr %2, i64 0
  %4 = load ptr, ptr %3, align 8
  call void @f(ptr %.addr1, ptr %.zero.addr, ptr %4)
  ret void
}
declare i32 @__kmpc_target_init(ptr, i8, i1)
declare void @__kmpc_target_deinit(ptr, i8)
declare i32 @__kmpc_global_thread_num(ptr)
declare void @__kmpc_parallel_51(ptr, i32, i32, i32, i32, ptr, ptr, ptr, i64)
declare void @__kmpc_get_shared_variables(ptr)
declare i32 @omp_get_thread_num()
attributes #0 = { \"kernel\" }
!0 = !{i32 1}
";

/// Its canonical text.
pub(crate) const REGION_CANONICAL: &str = "source_filename = \"a.c\"
target triple = \"nvptx64-nvidia-cuda\"
%struct.ident_t = type { i32, i32, i32, i32, ptr }
@\"0\" = private unnamed_addr constant [23 x i8] c\";unknown;unknown;0;0;;\\00\", align 1
@\"1\" = private unnamed_addr constant %struct.ident_t { i32 0, i32 2, i32 0, i32 22, ptr @\"0\" }, align 8
@k_exec_mode = weak protected constant i8 1
define weak_odr protected void @k(ptr %a) #0 {
entry:
  %a.addr = alloca ptr, align 8
  %captured_vars_addrs = alloca [1 x ptr], align 8
  store ptr %a, ptr %a.addr, align 8
  %\"0\" = load ptr, ptr %a.addr, align 8
  %\"1\" = call i32 @__kmpc_target_init(ptr @\"1\", i8 1, i1 true)
  %exec_user_code = icmp eq i32 %\"1\", -1
  br i1 %exec_user_code, label %user_code.entry, label %worker.exit
user_code.entry:
  %\"2\" = call i32 @__kmpc_global_thread_num(ptr @\"1\")
  %\"3\" = getelementptr inbounds [1 x ptr], ptr %captured_vars_addrs, i64 0, i64 0
  store ptr %\"0\", ptr %\"3\", align 8
  call void @__kmpc_parallel_51(ptr @\"1\", i32 %\"2\", i32 1, i32 -1, i32 -1, ptr @f, ptr @f_wrapper, ptr %captured_vars_addrs, i64 1)
  call void @__kmpc_target_deinit(ptr @\"1\", i8 1)
  ret void
worker.exit:
  ret void
}
define internal void @f(ptr %.global_tid., ptr %.bound_tid., ptr %a) #0 {
entry:
  %.global_tid..addr = alloca ptr, align 8
  store ptr %.global_tid., ptr %.global_tid..addr, align 8
  %call = call i32 @omp_get_thread_num()
  %idxprom = sext i32 %call to i64
  %arrayidx = getelementptr inbounds [4 x i32], ptr %a, i64 0, i64 %idxprom
  store i32 %call, ptr %arrayidx, align 4
  ret void
}
define internal void @f_wrapper(i16 %\"0\", i32 %\"1\") #0 {
entry:
  %.addr = alloca i16, align 2
  %.addr1 = alloca i32, align 4
  %.zero.addr = alloca i32, align 4
  %global_args = alloca ptr, align 8
  store i32 0, ptr %.zero.addr, align 4
  store i16 %\"0\", ptr %.addr, align 2
  store i32 %\"1\", ptr %.addr1, align 4
  call void @__kmpc_get_shared_variables(ptr %global_args)
  %\"2\" = load ptr, ptr %global_args, align 8
  %\"3\" = getelementptr inbounds ptr, ptr %\"2\", i64 0
  %\"4\" = load ptr, ptr %\"3\", align 8
  call void @f(ptr %.addr1, ptr %.zero.addr, ptr %\"4\")
  ret void
}
declare i32 @__kmpc_target_init(ptr, i8, i1)
declare void @__kmpc_target_deinit(ptr, i8)
declare i32 @__kmpc_global_thread_num(ptr)
declare void @__kmpc_parallel_51(ptr, i32, i32, i32, i32, ptr, ptr, ptr, i64)
declare void @__kmpc_get_shared_variables(ptr)
declare i32 @omp_get_thread_num()
@llvm.compiler.used = appending global [1 x ptr] [ptr @k_exec_mode], section \"llvm.metadata\"
attributes #0 = { \"kernel\" }
!0 = !{i32 1}
";

/// A kernel that forks a region with one capture, which adds 1 to what it points at.
pub(crate) const FORKED: &str = "define void @k(ptr %p) {
entry:
  %c = alloca [1 x ptr]
  %i = call i32 @__kmpc_target_init(ptr null, i8 1, i1 true)
  %m = icmp eq i32 %i, -1
  br i1 %m, label %user, label %exit
user:
  store ptr %p, ptr %c
  call void @__kmpc_parallel_51(ptr null, i32 0, i32 1, i32 -1, i32 -1, ptr @r, ptr @w, ptr %c, i64 1)
  call void @__kmpc_target_deinit(ptr null, i8 1)
  ret void
exit:
  ret void
}
define internal void @r(ptr %g, ptr %b, ptr %p) {
entry:
  %o = atomicrmw add ptr %p, i32 1 seq_cst
  ret void
}
define internal void @w(i16 %z, i32 %t) {
entry:
  %ga = alloca i32
  %za = alloca i32
  %aa = alloca ptr
  store i32 %t, ptr %ga
  call void @__kmpc_get_shared_variables(ptr %aa)
  %a = load ptr, ptr %aa
  %q = load ptr, ptr %a
  call void @r(ptr %ga, ptr %za, ptr %q)
  ret void
}
declare i32 @__kmpc_target_init(ptr, i8, i1)
declare void @__kmpc_target_deinit(ptr, i8)
declare void @__kmpc_parallel_51(ptr, i32, i32, i32, i32, ptr, ptr, ptr, i64)
declare void @__kmpc_get_shared_variables(ptr)
";
